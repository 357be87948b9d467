ghost use Rattle.std.specs.Prelude.{◌≤◌, length};
ghost use Rattle.sonic_parser.specs.Faults.{IsStopFor, IsErrorOf};

use sonic_error::{Error, ErrorCode};
use sonic_text::Stop;
use std::alloc::{AllocError, AllocFailed};

/// Why a reader of a text goes no further.
///
/// It keeps a place and a code alone. The line, the column and the text round the place are found
/// once, where a public call answers an `Error`.
#[derive(Clone, Copy, Debug, PartialEq, Eq)]
pub enum Fault {
    /// Memory ran out.
    OutOfMemory,
    /// What is expected at this place of the text isn't there.
    At(Stop),
}

impl Fault {
    /// The error that reports the fault, over the text that was read.
    ///
    /// A stop at 1 of `[x` is an error in line 1, column 2. Running out of memory is
    /// `ErrorCode::NoMemory` without a place.
    pub fn error(self, text: &[u8]) -> Error
        requires { IsStopFor (λ s. s.place ≤ length text.now) self }
        ensures { IsErrorOf text.now self result }
    {
        match self {
            Fault::OutOfMemory => Error::plain(ErrorCode::NoMemory),
            Fault::At(stop) => Error::syntax(stop.code, text, stop.place),
        }
    }
}

impl From<Stop> for Fault {
    ghost use Rattle.std.specs.Prelude.{◌≡◌};
    ghost use Rattle.sonic_parser.specs.declared.fault.Fault.TheVariants.{At};

    ghost from_gives = { λ stop fault. fault ≡ At stop };

    #[inline]
    fn from(stop: Stop) -> Fault {
        Fault::At(stop)
    }
}

impl From<AllocError> for Fault {
    ghost use Rattle.std.specs.Prelude.{◌≡◌};
    ghost use Rattle.sonic_parser.specs.declared.fault.Fault.TheVariants.{OutOfMemory};

    ghost from_gives = { λ _ fault. fault ≡ OutOfMemory };

    #[inline]
    fn from(_error: AllocError) -> Fault {
        Fault::OutOfMemory
    }
}

impl<T: Drop> From<AllocFailed<T>> for Fault {
    ghost use Rattle.std.specs.Prelude.{◌≡◌};
    ghost use Rattle.sonic_parser.specs.declared.fault.Fault.TheVariants.{OutOfMemory};

    ghost from_gives = { λ _ fault. fault ≡ OutOfMemory };

    #[inline]
    fn from(_error: AllocFailed<T>) -> Fault {
        Fault::OutOfMemory
    }
}
