//! Bytes of files, as they are written.
use crate::fault::TableFault;
use std::alloc::Global;

/// The byte that is written so.
fn byte_of_hex(digits: &str) -> Result<u8, TableFault> {
    if digits.len() != 2 {
        return Err(TableFault::NotWritten);
    }
    u8::from_str_radix(digits, 16).map_err(|_| TableFault::NotWritten)
}

/// The bytes that are written so, two digits of base sixteen each.
pub fn bytes_of_hex(alloc: Global, text: &str) -> Result<Vec<u8>, TableFault> {
    let mut bytes = Vec::new(alloc);
    for digits in text.split_whitespace() {
        bytes.push(byte_of_hex(digits)?)?;
    }
    Ok(bytes)
}

/// The byte that a letter stands for behind a `\`.
fn escaped(letter: u8) -> Result<u8, TableFault> {
    match letter {
        b'n' => Ok(b'\n'),
        b'r' => Ok(b'\r'),
        _ => Err(TableFault::NotWritten),
    }
}

/// The bytes of the text that is written so.
pub fn bytes_of_text(alloc: Global, text: &str) -> Result<Vec<u8>, TableFault> {
    let mut bytes = Vec::new(alloc);
    let mut is_escape = false;
    for byte in text.bytes() {
        if is_escape {
            bytes.push(escaped(byte)?)?;
            is_escape = false;
        } else if byte == b'\\' {
            is_escape = true;
        } else {
            bytes.push(byte)?;
        }
    }
    if is_escape {
        return Err(TableFault::NotWritten);
    }
    Ok(bytes)
}
