//! The names of the files of a composition series.
ghost use Rattle.std.specs.Prelude.{◌≡◌, ◌++◌, IfOk, string_bytes};
ghost use Rattle.axe_execute.specs.SeriesFiles.{report_file, basis_file, factor_name};

use std::alloc::{AllocError, Global};

/// The file of the report on the module of this name.
pub(crate) fn report_file(alloc: Global, name: &str) -> Result<String, AllocError>
    ensures { IfOk result (λ file. string_bytes file ≡ report_file name.now) }
{
    joined(alloc, name, ".rep")
}

/// The file of the basis that belongs to it.
pub(crate) fn basis_file(alloc: Global, name: &str) -> Result<String, AllocError>
    ensures { IfOk result (λ file. string_bytes file ≡ basis_file name.now) }
{
    joined(alloc, name, ".bas")
}

/// The name under which a constituent stands as a module of its own.
pub(crate) fn factor_name(
    alloc: Global,
    name: &str,
    constituent: &str,
) -> Result<String, AllocError>
    ensures { IfOk result (λ whole. string_bytes whole ≡ factor_name name.now constituent.now) }
{
    joined(alloc, name, constituent)
}

/// A name with more after it.
fn joined(alloc: Global, name: &str, more: &str) -> Result<String, AllocError>
    ensures { IfOk result (λ whole. string_bytes whole ≡ name.now ++ more.now) }
{
    let mut whole = String::from_str(alloc, name)?;
    whole.push_str(more)?;
    Ok(whole)
}
