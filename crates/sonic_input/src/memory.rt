// Running out of memory, reported as an error.
ghost use Rattle.sonic_error.specs.Errors.{IsPlainError};

use sonic_error::{Error, ErrorCode};
use std::alloc::AllocError;

/// The error of a call that found no memory. It has no place in a text.
pub(crate) fn no_memory(_: AllocError) -> Error
    ensures { IsPlainError result ErrorCode.NoMemory }
{
    Error::plain(ErrorCode::NoMemory)
}
