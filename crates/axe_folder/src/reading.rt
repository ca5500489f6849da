//! Reads that keep a limit.
ghost use Rattle.std.specs.Prelude.{◌+◌, ◌≤◌, IfOk, IfSome, vec_len};
ghost use Rattle.axe_folder.specs.Reading.{ReadsWithin, ReadsPiece, ConsumesAtMost};

use crate::fault::FolderFault;
use std::alloc::Global;
use std::io::{ErrorKind, Read};

/// The most bytes that one read asks for.
const PIECE: usize = 4096;

/// Reads once from the source and appends what came to `bytes`, asking for one byte past the limit at most. True says
/// that the source has ended, false that it may have more, as after an interruption.
fn read_piece<R: Read>(
    source: &mut R,
    bytes: &mut Vec<u8>,
    limit: usize,
) -> Result<bool, FolderFault>
    requires { vec_len bytes.old ≤ limit }
    ensures { ReadsPiece result bytes.old.items bytes.new.items
        (R.remaining source.old) (R.remaining source.new) limit }
{
    let room = limit - bytes.len();
    let asked = room.min(PIECE - 1) + 1;
    let mut piece = [0u8; PIECE];
    match source.read(&mut piece[..asked]) {
        Ok(count) if count > room => Err(FolderFault::TooLong),
        Ok(count) => {
            bytes.extend_from_slice(&piece[..count])?;
            Ok(count == 0)
        }
        Err(error) if error.kind() == ErrorKind::Interrupted => Ok(false),
        Err(_) => Err(FolderFault::Device),
    }
}

/// All bytes of the source, if there are at most `limit` of them. It asks for `limit + 1` bytes at most, in as many
/// turns at most; where these are spent on interruptions the answer is Device.
pub fn read_within<R: Read>(
    alloc: Global,
    source: &mut R,
    limit: usize,
) -> Result<Vec<u8>, FolderFault>
    ensures bounded { IfOk result (λ bytes. vec_len bytes ≤ limit) }
    ensures exact { IfSome (R.remaining source.old) (λ bytes. ReadsWithin result bytes limit) }
    ensures frugal { ConsumesAtMost (R.remaining source.old) (R.remaining source.new) (limit + 1) }
{
    let mut bytes = Vec::new(alloc);
    for _ in 0..limit.saturating_add(1) {
        if read_piece(source, &mut bytes, limit)? {
            return Ok(bytes);
        }
    }
    Err(FolderFault::Device)
}
