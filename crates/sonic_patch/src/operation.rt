// The operations of a patch.
ghost use Rattle.std.specs.Prelude.{◌≡◌};
ghost use Rattle.sonic_owned.specs.Views.{form};
ghost use Rattle.sonic_patch.specs.Internal.Texts as texts;
ghost use Rattle.sonic_patch.specs.Views.{tokens_of, operation_of};

use crate::parts::{Paired, Valued};
use crate::pointer::Pointer;
use sonic_owned::OwnedLazyValue;

// One operation (RFC 6902, section 4).
#[derive(Drop)]
pub(crate) enum Operation {
    Add(Pointer, OwnedLazyValue),
    Remove(Pointer),
    Replace(Pointer, OwnedLazyValue),
    // From the first to the second.
    Move(Pointer, Pointer),
    Copy(Pointer, Pointer),
    Test(Pointer, OwnedLazyValue),
}

impl Operation {
    // The operation of a word with a value.
    pub(crate) fn valued(word: Valued, path: Pointer, value: OwnedLazyValue) -> Operation
        ensures { operation_of result ≡ texts.valued word (tokens_of path) (form value) }
    {
        match word {
            Valued::Add => Operation::Add(path, value),
            Valued::Replace => Operation::Replace(path, value),
            Valued::Test => Operation::Test(path, value),
        }
    }

    // The operation of a word with two pointers.
    pub(crate) fn paired(word: Paired, from: Pointer, path: Pointer) -> Operation
        ensures { operation_of result ≡ texts.paired word (tokens_of from) (tokens_of path) }
    {
        match word {
            Paired::Move => Operation::Move(from, path),
            Paired::Copy => Operation::Copy(from, path),
        }
    }
}
