// A walk through a value, from part to part.
ghost use Rattle.std.specs.Prelude.{◌≡◌, ◌<◌, ◌≤◌, [], length, IfOk, IfErr, IsErrOf, OnErr};
ghost use Rattle.sonic_text.specs.Places.{byte, after_space};
ghost use Rattle.sonic_text.specs.Values.{opening};
ghost use Rattle.sonic_text.specs.Faults.{IsFault, IsKeyFault};
ghost use Rattle.sonic_parser.specs.Containers.{IsSeparatorFault};
ghost use Rattle.sonic_parser.specs.Faults.{IsStopFor};
ghost use Rattle.sonic_parser.specs.OpenContainers.{IsTop};
ghost use Rattle.sonic_parser.specs.Parsers.{IsFilledContainer};

use crate::fault::Fault;
use crate::parser::Parser;
use crate::value_span::ValueSpan;
use sonic_text::{Kind, Stop, byte_at};
use std::alloc::Global;
use std::marker::Model;

/// A walk through one value, from part to part, however deep it is (RFC 8259, sections 3 to 5).
///
/// It passes a value without parts and enters a container (`value`), passes a member's key (`head`),
/// and goes on to the next item or closes the container (`next`). Each call looks at its own part
/// alone; that all parts together are the value, and that a fault on the way is the value's one
/// fault, is the law `a_walk_keeps_to_its_value`. It keeps the kinds of the containers that are open,
/// one byte for each, and has no other stack.
///
/// ```text
/// let mut walk = Descent::new(alloc, Parser::new(Read::from("[7]")));
/// assert_eq!(rt; walk.value(alloc)?, Step::Entered(Kind::Array));
/// assert_eq!(rt; walk.head(Kind::Array)?, None);
/// assert_eq!(rt; walk.value(alloc)?, Step::Passed);
/// assert_eq!(rt; walk.next(Kind::Array)?, false);
/// assert_eq!(rt; walk.depth(), 0);
/// ```
#[derive(Drop)]
pub struct Descent<'de> {
    parser: Parser<'de>,
    opened: Vec<Kind>,
}

/// What a value is for a walk.
#[derive(Clone, Copy, Debug, PartialEq, Eq)]
pub enum Step {
    /// It was passed: it has no parts.
    Passed,
    /// It is a container of this kind, whose first item is expected.
    Entered(Kind),
}

impl<'de> Model for Descent<'de> {
    ghost use Rattle.sonic_parser.specs.Descents.{DescentState};

    ghost Value = { DescentState };

    ghost use Rattle.sonic_parser.specs.Internal.DescentViews.{descending_of};

    ghost view = { descending_of };
}

impl<'de> Descent<'de> {
    ghost use Rattle.sonic_parser.specs.Descents.{IsMoved, IsDescentStep, IsHeadPassed, IsNextOrClosed};

    /// A walk through the value at the parser's cursor, which is the value's first byte.
    pub fn new(alloc: Global, parser: Parser<'de>) -> Descent<'de>
        ensures text { result.text ≡ parser.entry.text }
        ensures place { result.place ≡ parser.entry.place }
        ensures lossy { result.lossy ≡ parser.entry.lossy }
        ensures opened { result.opened ≡ [] }
    {
        let opened = Vec::new(alloc);
        Descent { parser, opened }
    }

    /// The cursor, as an index of the text's bytes.
    #[inline(always)]
    pub fn offset(&self) -> usize
        ensures place { result ≡ self.now.place }
        ensures inside { result ≤ length self.now.text }
    {
        self.parser.offset()
    }

    /// The whole text, wherever the cursor is.
    #[inline(always)]
    pub fn text(&self) -> &'de [u8]
        ensures { result.now ≡ self.now.text }
    {
        self.parser.text()
    }

    /// How many containers are open.
    #[inline(always)]
    pub fn depth(&self) -> usize
        ensures { result ≡ length self.now.opened }
    {
        self.opened.len()
    }

    /// The kind of the innermost container that is open.
    #[inline(always)]
    pub fn kind(&self) -> Kind
        requires { 0 < length self.now.opened }
        ensures { IsTop self.now.opened result }
    {
        self.opened[self.opened.len() - 1]
    }

    /// Passes the value that is expected at the cursor, where it has no parts, or else enters it.
    ///
    /// The cursor moves past the value's last byte: past `1`, `"a"` and `[ ]`. Of a container with
    /// items it moves to the first one: from the start of `[ 1]` to the `1`. After an error all is
    /// as it was. Only a container with items takes memory, one byte for each that is open at once.
    #[inline(always)]
    pub fn value(&mut self, alloc: Global) -> Result<Step, Fault>
        ensures ok { IfOk result (IsDescentStep self.old self.new) }
        ensures moved { IsMoved self.old self.new }
        ensures err { IfErr result (IsStopFor (λ s.
            IsFault self.old.lossy self.old.text self.old.place s)) }
        ensures parts { IfOk result (λ step. step ≡ Step.Passed
            → ¬ IsFilledContainer self.old.text self.old.place) }
        ensures memory { IsErrOf result Fault.OutOfMemory
            → IsFilledContainer self.old.text self.old.place }
        ensures within { IfErr result (IsStopFor (λ s. s.place ≤ length self.old.text)) }
        ensures kept { OnErr result (self.new ≡ self.old) }
    {
        if let Some(kind) = Kind::opened_by(byte_at(self.parser.text(), self.parser.offset())) {
            return self.enter(kind);
        }
        if !self.parser.pass_scalar() {
            self.parser.skip_value(alloc)?;
        }
        Ok(Step::Passed)
    }

    // Enters the container of this kind at the cursor, where it has an item.
    #[inline(always)]
    fn enter(&mut self, kind: Kind) -> Result<Step, Fault>
        requires { byte self.old.text self.old.place ≡ opening kind }
        ensures ok { IfOk result (IsDescentStep self.old self.new) }
        ensures moved { IsMoved self.old self.new }
        ensures parts { IfOk result (λ step. step ≡ Step.Passed
            → ¬ IsFilledContainer self.old.text self.old.place) }
        ensures err { IfErr result (λ fault. fault ≡ Fault.OutOfMemory) }
        ensures memory { OnErr result (IsFilledContainer self.old.text self.old.place) }
        ensures kept { OnErr result (self.new ≡ self.old) }
    {
        let start = self.parser.offset();
        if !self.parser.enter(kind) {
            return Ok(Step::Passed);
        }
        if let Err(_) = self.opened.push(kind) {
            self.parser.move_to(start);
            return Err(Fault::OutOfMemory);
        }
        Ok(Step::Entered(kind))
    }

    /// Passes what comes before the value of the item that is expected at the cursor, in a container
    /// of this kind: nothing before an element's, and a key with its colon before a member's.
    ///
    /// Of `"a" : 1` the key is from 0 to 3, and the cursor moves to the `1`. After an error it is
    /// where it was.
    #[inline(always)]
    pub fn head(&mut self, kind: Kind) -> Result<Option<ValueSpan>, Stop>
        ensures ok { IfOk result (IsHeadPassed kind self.old self.new) }
        ensures moved { self.new ≡ record self.old { place = self.new.place } }
        ensures err { IfErr result (λ s.
            IsKeyFault self.old.lossy self.old.text self.old.place s) }
        ensures object { OnErr result (kind ≡ Kind.Object) }
        ensures within { IfErr result (λ s. s.place ≤ length self.old.text) }
        ensures kept { OnErr result (self.new ≡ self.old) }
    {
        match kind {
            Kind::Array => Ok(None),
            Kind::Object => Ok(Some(self.parser.key()?)),
        }
    }

    /// Goes on after the value of an item of the innermost container, which is of this kind, and
    /// ended at the cursor: whether another item is expected. Else the container is closed.
    ///
    /// The cursor moves past the comma and the white space after it to the next item, or after the
    /// closing bracket. After an error it is where it was.
    #[inline(always)]
    pub fn next(&mut self, kind: Kind) -> Result<bool, Stop>
        requires { 0 < length self.old.opened }
        ensures ok { IfOk result (IsNextOrClosed kind self.old self.new) }
        ensures moved { IsMoved self.old self.new }
        ensures err { IfErr result (λ s. IsSeparatorFault self.old.text kind self.old.place s) }
        ensures within { IfErr result (λ s. s.place ≤ length self.old.text) }
        ensures kept { OnErr result (self.new ≡ self.old) }
    {
        if self.parser.next_item(kind)? {
            return Ok(true);
        }
        self.opened.truncate(self.opened.len() - 1);
        Ok(false)
    }

    /// Passes white space.
    pub fn skip_space(&mut self)
        ensures { self.new ≡ record self.old { place = after_space self.old.text self.old.place } }
    {
        self.parser.skip_space_peek();
    }
}
