//! Reading the packed form of modules: first all checks, which take no memory, then the generators.

ghost use Rattle.std.specs.Prelude.{◌≡◌, ◌+◌, ◌*◌, ◌≤◌, [], None, Some, List, length, slice_get, IfOk, OnOk, IfErr};
ghost use Rattle.axe_algebra.specs.Lists.{listed};
ghost use Rattle.axe_matrix.specs.Matrices.{MatrixValue};
ghost use Rattle.axe_file.specs.Limits.{most_generators};
ghost use Rattle.axe_file.specs.Packed.{data_length};
ghost use Rattle.axe_file.specs.PackedModules.{AreGenerators, packed_module, module_fault, unpacked_module};
ghost use Rattle.axe_file.specs.PackedModules.{module_header_faults, generator_at};
ghost use Rattle.axe_file.specs.Headers.{SaysModule};
ghost use Rattle.axe_file.specs.Answers.{AnswersFile};
ghost use Rattle.axe_file.specs.declared.fault.FileFault.TheVariants.{Memory};

use crate::MAX_GENERATORS;
use crate::fault::FileFault;
use crate::layout::{
    DIMENSION_OFFSET, GENERATORS_OFFSET, HEADER_LENGTH, Layout, MODULE_MAGIC, MODULE_RESERVED,
};
use crate::reading::{
    Shape, check_data, field_in_header, has_reserved, is_out_of_range, matrix_of, number_at,
};
use axe_matrix::{MAX_ROWS, Matrix};
use std::alloc::Global;

/// How many generators there are, and how each row of each of them lies in its bytes.
#[derive(Clone, Copy)]
struct ModuleShape {
    generators: usize,
    layout: Layout,
    ghost few: { generators ≤ most_generators },
}

impl ModuleShape {
    /// The rows of one generator.
    fn one(&self) -> Shape
        ensures rows { result.rows ≡ self.now.layout.columns }
        ensures layout { result.layout ≡ self.now.layout }
    {
        Shape {
            rows: self.layout.columns,
            layout: self.layout,
        }
    }

    /// The rows of all generators.
    fn all(&self) -> Shape
        ensures rows { result.rows ≡ self.now.generators * self.now.layout.columns }
        ensures layout { result.layout ≡ self.now.layout }
    {
        Shape {
            rows: self.generators * self.layout.columns,
            layout: self.layout,
        }
    }
}

/// The generators of the module that the bytes spell in the packed form of modules. The answer is the first fault of
/// the bytes, whatever the memory; where they have none it is the generators, or [`FileFault::Memory`].
pub fn read_module(alloc: Global, bytes: &[u8]) -> Result<Vec<Matrix>, FileFault>
    ensures fault { AnswersFile (module_fault bytes.now) (λ matrices. matrices.items ≡ unpacked_module bytes.now)
        result }
    ensures value { IfOk result (λ matrices. matrices.items ≡ unpacked_module bytes.now) }
    ensures spelling { IfOk result (λ matrices. bytes.now ≡ packed_module matrices.items) }
    ensures only { (a : List MatrixValue) → AreGenerators a → bytes.now ≡ packed_module a →
        AnswersFile None (λ matrices. matrices.items ≡ a) result }
    ensures module { IfOk result (λ matrices. AreGenerators matrices.items) }
{
    let shape = module_header_of(bytes)?;
    check_data(&shape.all(), bytes, HEADER_LENGTH)?;
    generators_of(alloc, &shape, bytes, HEADER_LENGTH)
}

/// What the header says, or the first fault of the header.
fn module_header_of(bytes: &[u8]) -> Result<ModuleShape, FileFault>
    ensures faultless { OnOk result (module_header_faults bytes.now ≡ []) }
    ensures fault { IfErr result (λ fault. slice_get (module_header_faults bytes.now) 0 ≡ Some fault) }
    ensures says { IfOk result
        (λ shape. SaysModule bytes.now shape.layout.field shape.generators shape.layout.columns) }
{
    let field = field_in_header(bytes, &MODULE_MAGIC)?;
    let generators = usize::from(bytes[GENERATORS_OFFSET]);
    if is_out_of_range(generators, MAX_GENERATORS) {
        return Err(FileFault::BadGens);
    }
    if has_reserved(bytes, &MODULE_RESERVED) {
        return Err(FileFault::BadReserved);
    }
    let dimension = number_at(bytes, DIMENSION_OFFSET);
    if is_out_of_range(dimension, MAX_ROWS) {
        return Err(FileFault::BadRows);
    }
    Ok(ModuleShape {
        generators,
        layout: Layout::new(field, dimension),
    })
}

/// The generators whose faultless rows begin at an offset.
fn generators_of(
    alloc: Global,
    shape: &ModuleShape,
    bytes: &[u8],
    offset: usize,
) -> Result<Vec<Matrix>, FileFault>
    requires some_column { 1 ≤ shape.now.layout.columns }
    requires inside { offset + shape.now.generators * data_length shape.now.layout.field shape.now.layout.columns
        shape.now.layout.columns ≤ length bytes.now }
    ensures value { IfOk result (λ matrices. matrices.items
        ≡ listed shape.now.generators (generator_at shape.now.layout.field shape.now.layout.columns bytes.now offset)) }
    ensures memory { IfErr result (λ fault. fault ≡ Memory) }
{
    let one = shape.one();
    let size = one.rows * one.layout.width;
    let mut generators = Vec::with_capacity(alloc, shape.generators)?;
    for index in 0..shape.generators {
        let generator = matrix_of(alloc, &one, bytes, offset + index * size)?;
        generators.push(generator)?;
    }
    Ok(generators)
}
