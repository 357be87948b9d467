// What is said of a value of another type than is wanted.
ghost use Rattle.std.specs.Prelude.{◌≡◌, ◌⊎◌, ◌-◌, ◌<◌};
ghost use Rattle.sonic_error.specs.Errors.{error_code};
ghost use Rattle.sonic_text.specs.Places.{byte};
ghost use Rattle.sonic_text.specs.Faults.{IsFault};
ghost use Rattle.sonic_parser.specs.Parsers.{IsMismatch, IsOutOfMemory, IsStopped};

use super::Parser;
use crate::fault::Fault;
use sonic_error::{Error, ErrorCode, Note, Wanted};
use sonic_text::type_of;
use std::alloc::Global;

impl<'de> Parser<'de> {
    /// The error where a value of another type is wanted than the one that begins at the byte before
    /// the cursor, which is `peek`.
    ///
    /// It is the value's fault, if it has one, with the cursor at its place, and else a
    /// `Note::Mismatch` at the value's last byte, with the type of the value and the one that is
    /// wanted. The cursor is after the value then. Only a container with items takes memory; where it
    /// runs out, the cursor is where it was.
    ///
    /// After the `1` of `12 `, where an array is wanted, the error has the offset 1, and the cursor
    /// moves to the blank.
    #[tactic(auto, using(crate::proofs::RefusalLemmas::refusals))]
    pub fn peek_invalid_type(&mut self, alloc: Global, peek: u8, wanted: Wanted) -> Error
        requires after { 0 < self.old.place }
        requires first { byte self.old.text (self.old.place - 1) ≡ peek }
        ensures error { IsStopped (IsFault self.old.lossy self.old.text (self.old.place - 1)) self.old self.new result
            ⊎ IsMismatch wanted self.old self.new result
            ⊎ IsOutOfMemory (self.old.place - 1) self.old self.new result }
        ensures memory { error_code result ≡ ErrorCode.NoMemory
            → IsOutOfMemory (self.old.place - 1) self.old self.new result }
    {
        let place = self.offset();
        self.move_to(place - 1);
        match self.skip_value(alloc) {
            Ok(_) => {
                let found = type_of(peek);
                let code = ErrorCode::Message(Note::Mismatch { found, wanted });
                let last = self.offset() - 1;
                Error::syntax(code, self.text(), last)
            }
            Err(Fault::OutOfMemory) => {
                self.move_to(place);
                Error::plain(ErrorCode::NoMemory)
            }
            Err(Fault::At(stop)) => self.stop(stop),
        }
    }
}
