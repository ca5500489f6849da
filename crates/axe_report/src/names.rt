//! Names of constituents.

ghost use Rattle.std.specs.Prelude.{◌≡◌, ◌++◌, IfOk, OnOk, string_bytes};
ghost use Rattle.axe_report.specs.Names.{letters, constituent_name};

use std::alloc::{AllocError, Global};

/// The name of a constituent of this dimension, of which so many of the same dimension appear before it: the dimension
/// in decimal, and letters, a to z, then aa to az, ba and so on.
pub fn constituent_name(alloc: Global, dim: usize, number: usize) -> Result<String, AllocError>
    ensures { IfOk result (λ name. string_bytes name ≡ constituent_name dim number) }
{
    let mut name = format!(in alloc; "{dim}")?;
    push_letters(&mut name, number)?;
    Ok(name)
}

/// Appends the letters of a number.
fn push_letters(name: &mut String, number: usize) -> Result<(), AllocError>
    ensures { OnOk result (string_bytes name.new ≡ string_bytes name.old ++ letters number) }
{
    if number >= 26 {
        push_letters(name, number / 26 - 1)?;
    }
    name.push(char::from(b'a' + (number % 26) as u8))?;
    Ok(())
}
