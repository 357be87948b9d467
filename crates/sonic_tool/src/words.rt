// The words of the command line.
ghost use Rattle.std.specs.Prelude.{◌≡◌, ◌↔◌, drop, map, string_bytes, IfOk, IsErrOf};
ghost use Rattle.std.specs.Vec.Iter.{into_iter_items};
ghost use Rattle.sonic_tool.specs.Words.{IsWords, HasBrokenWord};

use std::alloc::{AllocError, Global};
use std::env::Args;
use std::io;
use std::io::ErrorKind;

// Why there are no words of arguments.
#[derive(Clone, Copy)]
pub(crate) enum Wordless {
    // One is no text.
    NoText,
    // Memory ran out.
    NoMemory,
}

impl From<AllocError> for Wordless {
    ghost use Rattle.std.specs.Prelude.{◌≡◌};
    ghost use Rattle.sonic_tool.specs.declared.words.Wordless.TheVariants.{NoMemory};

    ghost from_gives = { λ _ error. error ≡ NoMemory };

    fn from(_error: AllocError) -> Wordless {
        Wordless::NoMemory
    }
}

// The words, by the arguments that the system gives: all but the first, which is the program's name.
// That one is no text needs no memory to be found. The one other error of the system is that memory ran
// out.
pub(crate) fn words_of(alloc: Global, arguments: io::Result<Args>) -> Result<Vec<String>, Wordless>
    ensures words { IfOk result (λ words. IsWords arguments (map string_bytes words.items)) }
    ensures no_text { IsErrOf result Wordless.NoText ↔ HasBrokenWord arguments }
{
    match arguments {
        Ok(arguments) => Ok(after_name(alloc, arguments)?),
        Err(error) if error.kind() == ErrorKind::InvalidData => Err(Wordless::NoText),
        Err(_) => Err(Wordless::NoMemory),
    }
}

// The arguments but the first.
fn after_name(alloc: Global, arguments: Args) -> Result<Vec<String>, AllocError>
    ensures { IfOk result (λ words. words.items ≡ drop 1 (into_iter_items arguments)) }
{
    arguments.skip(1).collect(alloc)
}
