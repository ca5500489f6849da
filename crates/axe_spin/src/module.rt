//! Modules.

ghost use Rattle.std.specs.Prelude.{◌≡◌, ◌<◌, ◌≤◌, length, All, None, IfOk};
ghost use Rattle.axe_row.specs.Refusals.{Answers, unless_refused};
ghost use Rattle.axe_matrix.specs.Matrices.{IsMatrix};
ghost use Rattle.axe_spin.specs.Limits.{most_generators};
ghost use Rattle.axe_spin.specs.Modules.{IsModule, generator_of, generator_refusal, module_of_matrices, rows_of_each};
ghost use Rattle.axe_spin.specs.Modules.{rows_refusal};
ghost use Rattle.axe_spin.specs.Generators.{IsGeneratorMatrix};

use axe_field::Field;
use axe_matrix::{Matrix, Refusal};
use std::alloc::Global;
use std::marker::Model;

/// A module: 1 to `MAX_GENERATORS` square matrices over one field and of one dimension of at least 1, its generators.
/// They act from the right on the row vectors of that length. Generators are counted from 0.
#[derive(Drop)]
pub struct Module {
    field: Field,
    dim: usize,
    generators: Vec<Matrix>,
}

impl Model for Module {
    ghost use Rattle.axe_spin.specs.Modules.{ModuleValue, rows_of_each};
    ghost use Rattle.axe_spin.specs.Generators.{MakeModule};

    ghost Value = { ModuleValue };

    ghost view = { λ a. record { order = a.field; dim = a.dim; generators = rows_of_each a.generators.items } };

    ghost invariant = { λ a. MakeModule a.field a.dim a.generators.items };
}

impl Module {
    /// The module with these matrices as its generators, 1 to `MAX_GENERATORS` of them. For each in turn: one without
    /// rows is refused as NoRows, one that is not square as NotSquare, one over another field than the first as
    /// FieldsDiffer, and one with another number of rows than the first as ShapesDiffer. On a refusal the matrices are
    /// dropped. It takes no memory.
    pub fn new(matrices: Vec<Matrix>) -> Result<Module, Refusal>
        requires some_generator { 1 ≤ length matrices.items }
        requires generators_fit { length matrices.items ≤ most_generators }
        ensures made { result ≡ module_of_matrices matrices.items }
        ensures well_formed { IfOk result IsModule }
    {
        let first = &matrices[0];
        let field = *first.field();
        let dim = first.cols();
        for matrix in &matrices {
            check_generator(matrix, &field, dim)?;
        }
        Ok(Module {
            field,
            dim,
            generators: matrices,
        })
    }

    /// The field of the generators' entries.
    pub fn field(&self) -> &Field
        ensures order { result.now ≡ self.now.order }
        ensures well_formed { IsModule self.now }
    {
        &self.field
    }

    /// The dimension: how many rows and columns each generator has.
    pub fn dim(&self) -> usize
        ensures count { result ≡ self.now.dim }
        ensures well_formed { IsModule self.now }
    {
        self.dim
    }

    /// How many generators there are.
    pub fn gens(&self) -> usize
        ensures count { result ≡ length self.now.generators }
        ensures well_formed { IsModule self.now }
    {
        self.generators.len()
    }

    /// The generator at an index.
    pub fn generator(&self, index: usize) -> &Matrix
        requires { index < length self.now.generators }
        ensures value { result.now ≡ generator_of self.now index }
        ensures square { length result.now.rows ≡ self.now.dim }
        ensures generator_well_formed { IsMatrix result.now }
        ensures well_formed { IsModule self.now }
    {
        &self.generators[index]
    }

    /// The generators, in their order, so that each can be dropped when it is no longer needed.
    pub fn into_generators(self) -> Vec<Matrix>
        ensures generators { rows_of_each result.items ≡ self.generators }
        ensures each { All (IsGeneratorMatrix self.order self.dim) result.items }
        ensures well_formed { IsModule self }
    {
        let Module { generators, .. } = self;
        generators
    }

    /// Refuses a matrix whose rows are no vectors of the module: one over another field as FieldsDiffer, and else one
    /// with another number of columns than the dimension as ShapesDiffer. It takes no memory.
    pub fn check_rows(&self, rows: &Matrix) -> Result<(), Refusal>
        ensures refusal { result ≡ unless_refused (rows_refusal self.now rows.now) tt }
        ensures rows_well_formed { IsMatrix rows.now }
    {
        if rows.field() != self.field() {
            return Err(Refusal::FieldsDiffer);
        }
        if rows.cols() != self.dim() {
            return Err(Refusal::ShapesDiffer);
        }
        Ok(())
    }

    /// The same module a second time.
    pub fn copy(&self, alloc: Global) -> Result<Module, Refusal>
        ensures copied { Answers None (λ copy. copy ≡ self.now) result }
        ensures well_formed { IfOk result IsModule }
    {
        let mut generators = Vec::new(alloc);
        for generator in &self.generators {
            let copy = generator.copy(alloc)?;
            generators.push(copy)?;
        }
        Ok(Module {
            field: self.field,
            dim: self.dim,
            generators,
        })
    }
}

/// Refuses a matrix that is no generator of a module over a field and of a dimension.
fn check_generator(matrix: &Matrix, field: &Field, dim: usize) -> Result<(), Refusal>
    ensures refusal { result ≡ unless_refused (generator_refusal field.now dim matrix.now) tt }
    ensures generator { IfOk result (λ _. IsGeneratorMatrix field.now dim matrix.now) }
{
    if matrix.rows() == 0 {
        return Err(Refusal::NoRows);
    }
    if matrix.rows() != matrix.cols() {
        return Err(Refusal::NotSquare);
    }
    if matrix.field() != field {
        return Err(Refusal::FieldsDiffer);
    }
    if matrix.cols() != dim {
        return Err(Refusal::ShapesDiffer);
    }
    Ok(())
}
