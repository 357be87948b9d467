// Values, passed as they come.
ghost use Rattle.std.specs.Prelude.{◌≡◌, ◌≤◌, true, false, length, IfOk, IfErr, IsErrOf, OnErr};
ghost use Rattle.sonic_error.specs.Errors.{error_code};
ghost use Rattle.sonic_text.specs.Faults.{IsFault};
ghost use Rattle.sonic_text.specs.Values.{IsValue, ItemsFit};
ghost use Rattle.sonic_parser.specs.Faults.{IsStopFor};
ghost use Rattle.sonic_parser.specs.Honest.{IsHonest};
ghost use Rattle.sonic_parser.specs.Internal.Skipping.{IsReached};
ghost use Rattle.sonic_parser.specs.Parsers.{moved, value_start, IsSkipped, IsUnskipped, IsFilledContainer, IsOutOfMemory, IsPassed};

use super::Parser;
use crate::begin::{ValueStart, begin};
use crate::fault::Fault;
use crate::quick::{digits_ahead, pass_items, scalar_end};
use crate::skip::{Extent, Reached, close, separator_stop};
use crate::status::ParseStatus;
use crate::value_span::ValueSpan;
use sonic_error::{Error, ErrorCode};
use sonic_text::Kind;
use std::alloc::Global;

// So many containers are open at once without memory for their kinds.
const FEW: usize = 64;

impl<'de> Parser<'de> {
    // Passes the string, the number or the literal that begins at the cursor: whether one fits there. Else
    // the cursor stays.
    #[inline(always)]
    pub(crate) fn pass_scalar(&mut self) -> bool
        ensures yes { result ≡ true → IsValue self.old.lossy self.old.text self.old.place self.new.place }
        ensures moved { self.new ≡ moved self.old self.new.place }
        ensures no { result ≡ false → self.new ≡ self.old }
    {
        match scalar_end(self.read.as_u8_slice(), self.read.index(), self.lossy) {
            Some(end) => {
                self.read.set_index(end);
                true
            }
            None => false,
        }
    }

    /// Skips the value that begins at the cursor, however deep it is, and gives where it is.
    ///
    /// The cursor moves past the value's last byte. After an error it is where it was. Only a
    /// container with items takes memory, where it has a fault or more than 64 are open at once: one
    /// byte for each. What comes after the value isn't read, and nothing is said of its UTF-8.
    #[inline(always)]
    pub fn skip_value(&mut self, alloc: Global) -> Result<ValueSpan, Fault>
        ensures ok { IfOk result (IsPassed self.old self.new) }
        ensures moved { self.new ≡ moved self.old self.new.place }
        ensures err { IfErr result (IsStopFor (λ s.
            IsFault self.old.lossy self.old.text self.old.place s)) }
        ensures memory { IsErrOf result Fault.OutOfMemory
            → IsFilledContainer self.old.text self.old.place }
        ensures within { IfErr result (IsStopFor (λ s. s.place ≤ length self.old.text)) }
        ensures kept { OnErr result (self.new ≡ self.old) }
    {
        let start = self.read.index();
        let Some(end) = digits_ahead(self.read.as_u8_slice(), start) else {
            let escaped = self.skip_other(alloc)?;
            let end = self.read.index();
            return Ok(ValueSpan {
                start,
                end,
                escaped,
            });
        };
        self.read.set_index(end);
        Ok(ValueSpan::plain(start, end))
    }

    // The same, where the value may be any: whether it is a string with a backslash.
    fn skip_other(&mut self, alloc: Global) -> Result<bool, Fault>
        ensures ok { IfOk result (λ escaped. IsPassed self.old self.new
            (record { start = self.old.place; end = self.new.place; escaped = escaped })) }
        ensures moved { self.new ≡ moved self.old self.new.place }
        ensures err { IfErr result (IsStopFor (λ s.
            IsFault self.old.lossy self.old.text self.old.place s)) }
        ensures memory { IsErrOf result Fault.OutOfMemory
            → IsFilledContainer self.old.text self.old.place }
        ensures within { IfErr result (IsStopFor (λ s. s.place ≤ length self.old.text)) }
        ensures kept { OnErr result (self.new ≡ self.old) }
    {
        let text = self.read.as_u8_slice();
        let start = self.read.index();
        match begin(text, start, self.lossy)? {
            ValueStart::Complete(value) => {
                self.read.set_index(value.end);
                Ok(value.escaped)
            }
            ValueStart::Inside(kind, first) => {
                let end = self.close(alloc, kind, first)?;
                self.read.set_index(end);
                Ok(false)
            }
        }
    }

    // The end of the container that begins at the cursor, whose first item is expected at a place.
    //
    // Without memory, as long as few are open.
    fn close(&mut self, alloc: Global, kind: Kind, first: usize) -> Result<usize, Fault>
        requires within { first ≤ length self.old.text }
        requires item { ItemsFit self.old.lossy self.old.text kind self.old.place 0 first }
        ensures within { IfOk result (λ end. end ≤ length self.old.text) }
        ensures ok { IfOk result (λ end. IsValue self.old.lossy self.old.text self.old.place end) }
        ensures err { IfErr result (IsStopFor (λ s.
            IsFault self.old.lossy self.old.text self.old.place s)) }
        ensures kept { self.new ≡ self.old }
    {
        let text = self.read.as_u8_slice();
        let mut kinds = [kind; FEW];
        let Extent { reached, depth } = pass_items(text, &mut kinds, 1, first, self.lossy);
        match reached {
            Reached::Closed(end) => Ok(end),
            Reached::Ended(end) => Err(Fault::At(separator_stop(text, end, &kinds[..depth]))),
            Reached::Expected(place) => self.close_deep(alloc, &kinds[..depth], place),
        }
    }

    // The same, where an item of the innermost of many open containers is expected.
    #[inline(never)]
    fn close_deep(&mut self, alloc: Global, kinds: &[Kind], place: usize) -> Result<usize, Fault>
        requires { IsReached self.old.lossy self.old.text self.old.place kinds.now (Reached.Expected place) }
        ensures within { IfOk result (λ end. end ≤ length self.old.text) }
        ensures ok { IfOk result (λ end. IsValue self.old.lossy self.old.text self.old.place end) }
        ensures err { IfErr result (IsStopFor (λ s.
            IsFault self.old.lossy self.old.text self.old.place s)) }
        ensures kept { self.new ≡ self.old }
    {
        let mut opened = match self.opened.take() {
            Some(opened) => opened,
            None => Vec::new(alloc),
        };
        let text = self.read.as_u8_slice();
        opened.clear();
        let end = match opened.extend_from_slice(kinds) {
            Ok(()) => close(text, &mut opened, place, self.lossy),
            Err(_) => Err(Fault::OutOfMemory),
        };
        self.opened = Some(opened);
        end
    }

    /// Passes the value that is expected, however deep it is, and gives its text.
    ///
    /// The text begins with the value's first byte and ends with its last: of ` [1, 2] x` it is
    /// `[1, 2]`. It takes memory as `skip_value` does.
    /// What follows the value isn't read, and nothing is said of its UTF-8. After an error
    /// the cursor is where the text's fault is, or, where memory ran out, where it was.
    #[tactic(auto, using(crate::proofs::RefusalLemmas::refusals))]
    pub fn skip_one(&mut self, alloc: Global) -> Result<(&'de [u8], ParseStatus), Error>
        ensures ok { IfOk result (λ found. IsSkipped self.old self.new found.0.now found.1) }
        ensures err { IfErr result (λ error. IsUnskipped self.old self.new error) }
        ensures memory { IfErr result (λ error.
            error_code error ≡ ErrorCode.NoMemory
            → IsOutOfMemory (value_start self.old) self.old self.new error) }
        ensures honest { IfErr result (IsHonest self.old.lossy self.old.text self.old.place) }
    {
        let place = self.read.index();
        self.skip_space_peek();
        match self.skip_value(alloc) {
            Ok(value) => Ok((
                self.read.slice(value.start, self.read.index()),
                value.status(),
            )),
            Err(Fault::OutOfMemory) => {
                self.read.set_index(place);
                Err(Error::plain(ErrorCode::NoMemory))
            }
            Err(Fault::At(stop)) => Err(self.stop(stop)),
        }
    }
}
