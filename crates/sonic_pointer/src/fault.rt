// Why a tree refuses a path.
use sonic_error::{Error, ErrorCode};
use std::alloc::AllocError;

/// Why a tree of paths refuses one.
#[derive(Clone, Copy, PartialEq, Eq, Debug)]
pub enum PathError {
    /// An earlier path has an equal prefix, and then a node of the other kind.
    Mixed,
    /// The path has more than [`MAX_NODES`](crate::MAX_NODES) nodes.
    TooLong,
    /// Memory ran out.
    NoMemory,
}

impl From<AllocError> for PathError {
    ghost use Rattle.std.specs.Prelude.{◌≡◌};
    ghost use Rattle.sonic_pointer.specs.declared.fault.PathError.{PathError};

    ghost from_gives = { λ _ error. error ≡ PathError.NoMemory };

    fn from(_: AllocError) -> Self {
        PathError::NoMemory
    }
}

/// So a function whose errors are those of texts adds a path with `?`. The error has no place. `Mixed`
/// is `ErrorCode::UnexpectedVisitType`, of the family of wrong types, and `TooLong` is
/// `ErrorCode::RecursionLimitExceeded`.
impl From<PathError> for Error {
    ghost use Rattle.sonic_error.specs.Errors.{IsPlainError};
    ghost use Rattle.sonic_pointer.specs.Refusals.{code_of_refusal};

    ghost from_gives = { λ refusal error. IsPlainError error (code_of_refusal refusal) };

    fn from(refusal: PathError) -> Error {
        Error::plain(match refusal {
            PathError::Mixed => ErrorCode::UnexpectedVisitType,
            PathError::TooLong => ErrorCode::RecursionLimitExceeded,
            PathError::NoMemory => ErrorCode::NoMemory,
        })
    }
}
