// Text as it is denoted: keys and strings.
ghost use Rattle.std.specs.Prelude.{◌≡◌, IfOk, IsUtf8};
ghost use Rattle.std.proofs.Props.{props};

use sonic_input::FastStr;
use std::alloc::{AllocError, Global};

// A key, or the text of a string: UTF-8, as it is denoted, without quotes and escapes.
#[derive(Drop)]
pub(crate) struct MadeText {
    pub(crate) text: FastStr,
    ghost utf8: { IsUtf8 text } by { Prim.hlevel props },
}

impl MadeText {
    // Another owner of the text.
    pub(crate) fn clone(&self, alloc: Global) -> Result<MadeText, AllocError>
        ensures { IfOk result (λ made. made.text ≡ self.now.text) }
    {
        match self.text.clone(alloc) {
            Ok(text) => Ok(MadeText { text }),
            Err(_) => Err(AllocError),
        }
    }
}
