//! The loop that reads the whole input.
ghost use Rattle.std.specs.Prelude.{◌≡◌, ◌++◌, ◌+◌, ◌<◌, ◌≤◌, ℕ, List, length, vec_len, IfOk, OnOk, IsErrOf};
ghost use Rattle.std.specs.Io.KnownBytes.{IsAtEnd};
ghost use Rattle.sonic_io.specs.Outside.{Rose, Gave, input_limit};
ghost use Rattle.sonic_io.specs.declared.reading.ReadError.TheVariants.{Memory};

use crate::source::Source;
use std::alloc::{AllocError, Global};

/// How many bytes an input may have: 256 MiB.
pub const LIMIT: usize = 268_435_456;

// How many bytes are asked for in one call.
const ROOM: usize = 65_536;

/// Why an input wasn't read to its end.
#[derive(Clone, Copy, Debug, PartialEq, Eq)]
pub enum ReadError {
    /// A read failed.
    Fault,
    /// There are more bytes than `LIMIT`.
    TooLarge,
    /// Memory ran out.
    Memory,
}

impl From<AllocError> for ReadError {
    ghost from_gives = { λ _ error. error ≡ Memory };

    fn from(_error: AllocError) -> ReadError {
        ReadError::Memory
    }
}

/// All bytes that the source has left, if they are no more than `LIMIT`.
///
/// At most `LIMIT + 1` bytes are read, and the first fault ends the reading. After an error what
/// was read is lost. Of a source over `[7]` that gives one byte in a call it makes four calls, of
/// which the last gives nothing, and answers `[7]`.
pub fn read_all<S: Source>(alloc: Global, source: &mut S) -> Result<Vec<u8>, ReadError>
    ensures all { IfOk result (λ bytes. Gave (S.left source.old) (S.left source.new) bytes.items) }
    ensures end { OnOk result (IsAtEnd (S.left source.new)) }
    ensures within { IfOk result (λ bytes. vec_len bytes ≤ input_limit) }
    ensures large { IsErrOf result ReadError.TooLarge
        → (bytes : List ℕ) × (length bytes ≡ input_limit + 1)
        × Gave (S.left source.old) (S.left source.new) bytes }
    ensures cause { IsErrOf result ReadError.Fault
        → Rose (S.faults source.old) (S.faults source.new) }
    ensures calm { ¬ IsErrOf result ReadError.Fault
        → S.faults source.new ≡ S.faults source.old }
{
    let mut room = zeros(alloc, ROOM)?;
    let room = room.as_mut_slice();
    let mut bytes = Vec::new(alloc);
    while bytes.len() <= LIMIT {
        let most = ROOM.min(LIMIT + 1 - bytes.len());
        if read_some(source, &mut room[..most], &mut bytes)? == 0 {
            return Ok(bytes);
        }
    }
    Err(ReadError::TooLarge)
}

// Reads a piece by way of a room, puts it after `bytes`, and answers its length.
fn read_some<S: Source>(
    source: &mut S,
    room: &mut [u8],
    bytes: &mut Vec<u8>,
) -> Result<usize, ReadError>
    ensures bound { IfOk result (λ count. count ≤ length room.old) }
    ensures given { IfOk result (λ count. (piece : List ℕ) × (length piece ≡ count)
        × (bytes.new.items ≡ bytes.old.items ++ piece)
        × Gave (S.left source.old) (S.left source.new) piece) }
    ensures end { IfOk result (λ count. count ≡ 0 → 0 < length room.old → IsAtEnd (S.left source.new)) }
    ensures cause { IsErrOf result ReadError.Fault
        → Rose (S.faults source.old) (S.faults source.new) }
    ensures calm { ¬ IsErrOf result ReadError.Fault
        → S.faults source.new ≡ S.faults source.old }
    ensures within { ¬ IsErrOf result ReadError.TooLarge }
{
    let Ok(count) = source.read(room) else {
        return Err(ReadError::Fault);
    };
    bytes.extend_from_slice(&room[..count])?;
    Ok(count)
}

// So many bytes, as room for those that are still to come.
fn zeros(alloc: Global, count: usize) -> Result<Vec<u8>, AllocError>
    ensures { IfOk result (λ row. vec_len row ≡ count) }
{
    vec![in alloc; 0u8; count]
}
