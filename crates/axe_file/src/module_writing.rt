//! Writing the packed form of modules.

ghost use Rattle.std.specs.Prelude.{◌≡◌, ◌≤◌, ◌++◌, IfOk, OnOk, IfErr};
ghost use Rattle.axe_file.specs.Limits.{most_generators};
ghost use Rattle.axe_file.specs.PackedModules.{AreGenerators, packed_module, module_header};
ghost use Rattle.axe_file.specs.declared.fault.FileFault.TheVariants.{Memory};

use crate::fault::FileFault;
use crate::layout::{HEADER_LENGTH, Layout, MODULE_MAGIC};
use crate::writing::put_rows;
use axe_matrix::Matrix;
use std::alloc::{AllocError, Global};

/// The one spelling of a module, given by its generators, in the packed form of modules. The only fault is
/// [`FileFault::Memory`].
pub fn write_module(alloc: Global, generators: &[Matrix]) -> Result<Vec<u8>, FileFault>
    requires { AreGenerators generators.now }
    ensures spelling { IfOk result (λ bytes. bytes.items ≡ packed_module generators.now) }
    ensures memory { IfErr result (λ fault. fault ≡ Memory) }
{
    let first = &generators[0];
    let layout = Layout::new(*first.field(), first.cols());
    let size = generators.len() * (layout.columns * layout.width);
    let mut bytes = Vec::with_capacity(alloc, HEADER_LENGTH + size)?;
    put_module_header(&mut bytes, &layout, generators.len())?;
    let mut room = vec![in alloc; 0; layout.columns + layout.width]?;
    for generator in generators {
        put_rows(&mut bytes, &layout, generator, &mut room)?;
    }
    Ok(bytes)
}

/// Appends the header of a module of so many generators.
fn put_module_header(
    bytes: &mut Vec<u8>,
    layout: &Layout,
    generators: usize,
) -> Result<(), AllocError>
    requires { generators ≤ most_generators }
    ensures { OnOk result (bytes.new.items ≡ bytes.old.items
        ++ module_header layout.now.field generators layout.now.columns) }
{
    bytes.extend_from_slice(&MODULE_MAGIC)?;
    bytes.extend_from_slice(&[layout.field.order(), generators as u8, 0, 0])?;
    bytes.extend_from_slice(&(layout.columns as u32).to_le_bytes())?;
    bytes.extend_from_slice(&[0; 4])?;
    Ok(())
}
