//! Numbers, fields and their elements, as they are written.

ghost use Rattle.std.specs.Prelude.{◌<◌, IfOk};
ghost use Rattle.axe_field.specs.Order.{order_number};

use crate::fault::TableFault;
use axe_field::Field;

/// The number that is written so.
pub fn number_of(text: &str) -> Result<usize, TableFault> {
    text.parse::<usize>().map_err(|_| TableFault::NotWritten)
}

/// The number below 256 that is written so.
pub fn small_number_of(text: &str) -> Result<u8, TableFault> {
    text.parse::<u8>().map_err(|_| TableFault::NotWritten)
}

/// The start and the end of the range that is written so.
pub fn range_of(text: &str) -> Result<(usize, usize), TableFault> {
    let (start, end) = text.split_once("..").ok_or(TableFault::NotWritten)?;
    Ok((number_of(start)?, number_of(end)?))
}

/// The yes or no that is written so.
pub fn truth_of(text: &str) -> Result<bool, TableFault> {
    match text {
        "yes" => Ok(true),
        "no" => Ok(false),
        _ => Err(TableFault::NotWritten),
    }
}

/// The field of the order that is written so.
pub fn field_of(text: &str) -> Result<Field, TableFault> {
    let order = small_number_of(text)?;
    Field::new(order).map_err(|_| TableFault::NotWritten)
}

/// The element of a field that is written so.
pub fn element_in(field: &Field, text: &str) -> Result<u8, TableFault>
    ensures { IfOk result (λ element. element < order_number field.now) }
{
    let element = small_number_of(text)?;
    if !field.is_element(element) {
        return Err(TableFault::NotWritten);
    }
    Ok(element)
}
