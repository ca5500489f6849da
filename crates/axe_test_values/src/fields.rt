//! The fields of a line.
use crate::fault::TableFault;

/// Whether a line is no call.
pub fn is_remark(line: &str) -> bool {
    line.starts_with('#')
}

/// The first field of a line, and the others.
pub fn first_field(line: &str) -> Result<(&str, &str), TableFault> {
    let (first, others) = line.split_once('|').ok_or(TableFault::NotWritten)?;
    Ok((first.trim(), others))
}

/// The only field of a line.
pub fn one_field(line: &str) -> Result<&str, TableFault> {
    if line.contains('|') {
        return Err(TableFault::NotWritten);
    }
    Ok(line.trim())
}

/// The fields of a line with two.
pub fn two_fields(line: &str) -> Result<(&str, &str), TableFault> {
    let (first, others) = first_field(line)?;
    Ok((first, one_field(others)?))
}

/// The fields of a line with three.
pub fn three_fields(line: &str) -> Result<(&str, &str, &str), TableFault> {
    let (first, others) = first_field(line)?;
    let (second, third) = two_fields(others)?;
    Ok((first, second, third))
}

/// The fields of a line with four.
pub fn four_fields(line: &str) -> Result<(&str, &str, &str, &str), TableFault> {
    let (first, others) = first_field(line)?;
    let (second, third, fourth) = three_fields(others)?;
    Ok((first, second, third, fourth))
}
