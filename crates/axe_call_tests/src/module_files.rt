//! Files of whole modules: read, refused and written; and such files of which a byte is changed, or whose end is cut off.
use crate::changed::with_byte;
use crate::tables::{Topic, each_call};
use axe_file::{FileFault, read_module, write_module};
use axe_matrix::Matrix;
use axe_test_values::{TableFault, bytes_of_hex, is_fault, is_same_matrix, two_fields};
use std::alloc::Global;

/// `read_module`: a packed file of a module, and its generators or its first fault. Where it has none, the file is what is
/// written of the generators.
const MODULES: &str = "\
# 41 58 50 32 is AXP2.
read_module | 41 58 50 32 02 01 00 00 02 00 00 00 00 00 00 00 40 C0 | 2: 01/11
read_module | 41 58 50 32 02 02 00 00 02 00 00 00 00 00 00 00 40 80 40 C0 | 2: 01/10, 2: 01/11
read_module | 41 58 50 32 09 02 00 00 01 00 00 00 00 00 00 00 24 48 | 9: 4, 9: 8
read_module | 41 58 50 32 02 10 00 00 01 00 00 00 00 00 00 00 80 00 80 80 80 80 80 80 80 80 80 80 80 80 80 80 \
| 2: 1, 2: 0, 2: 1, 2: 1, 2: 1, 2: 1, 2: 1, 2: 1, 2: 1, 2: 1, 2: 1, 2: 1, 2: 1, 2: 1, 2: 1, 2: 1
read_module | 41 58 50 32 02 01 00 00 02 00 00 00 00 00 00 | ShortHeader
read_module | 41 58 50 31 02 01 00 00 02 00 00 00 02 00 00 00 40 C0 | BadMagic
read_module | 41 58 50 31 06 00 01 00 00 00 00 00 01 00 00 00 | BadMagic
read_module | 41 58 50 32 06 00 01 00 00 00 00 00 01 00 00 00 | BadField
read_module | 41 58 50 32 02 00 01 00 00 00 00 00 01 00 00 00 | BadGens
read_module | 41 58 50 32 02 11 01 00 00 00 00 00 01 00 00 00 | BadGens
read_module | 41 58 50 32 02 00 00 00 02 00 00 00 00 00 00 00 40 C0 | BadGens
read_module | 41 58 50 32 02 11 00 00 02 00 00 00 00 00 00 00 40 C0 | BadGens
read_module | 41 58 50 32 02 01 01 00 00 00 00 00 00 00 00 00 | BadReserved
read_module | 41 58 50 32 02 01 00 01 02 00 00 00 00 00 00 00 40 C0 | BadReserved
read_module | 41 58 50 32 02 01 00 00 02 00 00 00 01 00 00 00 40 C0 | BadReserved
read_module | 41 58 50 32 02 01 00 00 00 00 00 00 00 00 00 01 | BadReserved
read_module | 41 58 50 32 02 01 00 00 00 00 00 00 00 00 00 00 | BadRows
read_module | 41 58 50 32 02 01 00 00 01 10 00 00 00 00 00 00 | BadRows
read_module | 41 58 50 32 02 01 00 00 00 10 00 00 00 00 00 00 | Truncated
read_module | 41 58 50 32 02 01 00 00 02 00 00 00 00 00 00 00 40 | Truncated
read_module | 41 58 50 32 02 02 00 00 02 00 00 00 00 00 00 00 40 C0 20 | Truncated
read_module | 41 58 50 32 02 02 00 00 02 00 00 00 00 00 00 00 40 C0 20 C0 | BadPadding at 18
read_module | 41 58 50 32 05 02 00 00 01 00 00 00 00 00 00 00 19 7D | BadByte at 17
read_module | 41 58 50 32 02 01 00 00 02 00 00 00 00 00 00 00 40 C0 00 | TrailingBytes
";

/// `01/10` and `12/01` over the field of three elements, as a packed module.
const PACKED: &[u8] = b"AXP2\x03\x02\0\0\x02\0\0\0\0\0\0\0\x1B\x51\x87\x1B";

/// How many of its bytes are the header.
const HEADER: usize = 16;

/// Whether the matrices are those that are written so.
fn are_matrices(alloc: Global, matrices: &[Matrix], text: &str) -> Result<bool, TableFault> {
    let mut count = 0;
    for wanted in text.split(", ") {
        match matrices.get(count) {
            Some(matrix) => {
                if !is_same_matrix(alloc, matrix, wanted)? {
                    return Ok(false);
                }
            }
            None => return Ok(false),
        }
        count += 1;
    }
    Ok(count == matrices.len())
}

/// What is written of the module that the bytes spell.
fn rewritten(alloc: Global, bytes: &[u8]) -> Result<Vec<u8>, FileFault> {
    let generators = read_module(alloc, bytes)?;
    write_module(alloc, &generators)
}

fn reads_module(alloc: Global, line: &str) -> Result<bool, TableFault> {
    let (bytes, wanted) = two_fields(line)?;
    let bytes = bytes_of_hex(alloc, bytes)?;
    let written = rewritten(alloc, &bytes);
    match read_module(alloc, &bytes) {
        Ok(generators) => Ok(
            written.is_ok_and(|written| written.as_slice() == bytes.as_slice())
                && are_matrices(alloc, &generators, wanted)?,
        ),
        Err(fault) => is_fault(alloc, &fault, wanted),
    }
}

/// Whether a call answers what its line says.
pub(crate) fn answers(alloc: Global, call: &str, line: &str) -> Result<bool, TableFault> {
    match call {
        "read_module" => reads_module(alloc, line),
        _ => Err(TableFault::NotWritten),
    }
}

/// Whether the bytes are no packed module, or the one of the generators that they give.
fn is_refused_or_packed(alloc: Global, bytes: &[u8]) -> Result<bool, FileFault> {
    match rewritten(alloc, bytes) {
        Ok(written) => Ok(written.as_slice() == bytes),
        Err(FileFault::Memory) => Err(FileFault::Memory),
        Err(_) => Ok(true),
    }
}

#[test]
fn packed_modules_are_read_refused_and_written(rt: HostRuntime) -> Result<(), TableFault> {
    each_call(&rt, rt.alloc(), Topic::ModuleFiles, MODULES)
}

#[test]
fn a_packed_module_with_another_byte_is_refused_or_another_module(
    rt: HostRuntime,
) -> Result<(), FileFault> {
    for place in 0..PACKED.len() {
        for byte in 0..=u8::MAX {
            let bytes = with_byte(rt.alloc(), PACKED, place, byte)?;
            assert!(&rt;
                is_refused_or_packed(rt.alloc(), &bytes)?,
                "{byte} at {place}"
            );
        }
    }
    Ok(())
}

#[test]
fn a_packed_module_that_is_cut_is_refused(rt: HostRuntime) {
    for length in 0..PACKED.len() {
        let wanted = if length < HEADER {
            FileFault::ShortHeader
        } else {
            FileFault::Truncated
        };
        let answer = read_module(rt.alloc(), &PACKED[..length]);
        assert!(&rt; answer.err() == Some(wanted), "{length} bytes");
    }
}
