// What refuses a patch.
use sonic_error::Error;
use std::alloc::AllocError;

/// Why a patch isn't read, or isn't made. Operations are counted from 0.
///
/// Of `[{"op":"remove"}]` it is `PatchError::Shape { op: 0 }`, as the path is missing.
#[derive(Debug, Drop)]
pub enum PatchError {
    /// The text is no JSON text.
    Json(Error),
    /// It is no array.
    NotArray,
    /// The operation is no object with the members that it needs.
    Shape { op: usize },
    /// A pointer of the operation isn't one.
    Pointer { op: usize },
    /// A pointer of the operation has more than 255 tokens.
    TooLong { op: usize },
    /// A pointer of the operation leads to nothing.
    Missing { op: usize },
    /// The value that is there isn't the one that is wanted.
    TestFailed { op: usize },
    /// A value would be moved into itself.
    IntoChild { op: usize },
    /// Memory ran out.
    NoMemory,
}

/// So a function whose errors are these asks for memory with `?`.
impl From<AllocError> for PatchError {
    ghost use Rattle.std.specs.Prelude.{◌≡◌};
    ghost use Rattle.sonic_patch.specs.declared.error.PatchError.TheVariants.{NoMemory};

    ghost from_gives = { λ refused error. error ≡ NoMemory };

    fn from(_: AllocError) -> PatchError {
        PatchError::NoMemory
    }
}

// Why an operation isn't made.
#[derive(Clone, Copy, Debug)]
pub(crate) enum Refusal {
    Missing,
    TestFailed,
    IntoChild,
    NoMemory,
}

impl From<AllocError> for Refusal {
    ghost use Rattle.std.specs.Prelude.{◌≡◌};
    ghost use Rattle.sonic_patch.specs.declared.error.Refusal.TheVariants.{NoMemory};

    ghost from_gives = { λ refused refusal. refusal ≡ NoMemory };

    fn from(_: AllocError) -> Refusal {
        Refusal::NoMemory
    }
}

impl Refusal {
    ghost use Rattle.std.specs.Prelude.{◌≡◌};
    ghost use Rattle.sonic_patch.specs.Internal.Refusals.{error_of};

    // The error of the operation with this number.
    pub(crate) fn error_of(self, op: usize) -> PatchError
        ensures { result ≡ error_of op self }
    {
        match self {
            Refusal::Missing => PatchError::Missing { op },
            Refusal::TestFailed => PatchError::TestFailed { op },
            Refusal::IntoChild => PatchError::IntoChild { op },
            Refusal::NoMemory => PatchError::NoMemory,
        }
    }
}
