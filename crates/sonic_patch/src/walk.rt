// A walk through a value that tells its parts in their order.
ghost use Rattle.std.specs.Prelude.{◌≡◌, ℕ, ◌<◌, ◌≤◌, List, [], Option, Some, None, IsSome, length, IfOk, OnOk};
ghost use Rattle.sonic_text.specs.Strings.{strict};
ghost use Rattle.sonic_text.specs.Trees.{Tree, Means};
ghost use Rattle.sonic_patch.specs.Internal.Tags.{Tag, tags};
ghost use Rattle.sonic_patch.specs.Internal.Walks.{RemainsFromItem, RemainsFromValue, IsBare, IsKeyLabel, IsLeaf, Remains, TellsFirst, TellsNext};

use sonic_error::JsonType;
use sonic_input::Read;
use sonic_parser::internal::{Descent, Step};
use sonic_parser::{Fault, Parser};
use sonic_text::{Kind, Stop, byte_at, type_of};
use std::alloc::Global;

// A value without parts, with the text of a number, and of a string with its quotes.
#[derive(Clone, Copy)]
pub(crate) enum Leaf<'t> {
    Null,
    Truth(bool),
    Number(&'t [u8]),
    Text(&'t [u8]),
    Empty(Kind),
}

// What a walk comes to: a value without parts or the beginning of a container, with its key, the quotes
// with it, where it is a member; or the end of a container.
#[derive(Clone, Copy)]
pub(crate) enum Event<'t> {
    Leaf(Option<&'t [u8]>, Leaf<'t>),
    Begin(Option<&'t [u8]>, Kind),
    End(Kind),
}

// What a value without parts is, which goes from one place to the other.
#[inline(always)]
fn leaf_at(text: &[u8], start: usize, end: usize) -> Leaf<'_>
    requires order { start ≤ end }
    requires within { end ≤ length text.now }
    ensures { (x : Tree) → Means text.now start end x → IsBare x → IsLeaf result x }
{
    let first = byte_at(text, start);
    match type_of(first) {
        JsonType::Null => Leaf::Null,
        JsonType::Boolean => Leaf::Truth(first == b't'),
        JsonType::Number => Leaf::Number(&text[start..end]),
        JsonType::String => Leaf::Text(&text[start..end]),
        JsonType::Array => Leaf::Empty(Kind::Array),
        JsonType::Object => Leaf::Empty(Kind::Object),
    }
}

// Passes the key of the member that is expected, where it is one.
#[inline(always)]
fn pass_key<'t>(walk: &mut Descent<'t>) -> Result<Option<&'t [u8]>, Stop>
    ensures ok { IfOk result (λ key. walk.old.lossy ≡ strict → (rest : List Tag) → RemainsFromItem walk.old rest
        → (l : Option (List ℕ)) × IsKeyLabel key l × RemainsFromValue walk.new l rest) }
    ensures moved { walk.new ≡ record walk.old { place = walk.new.place } }
    ensures later { OnOk result (walk.old.place ≤ walk.new.place) }
{
    if walk.depth() == 0 {
        return Ok(None);
    }
    match walk.head(walk.kind())? {
        None => Ok(None),
        Some(key) => Ok(Some(&walk.text()[key.start..key.end])),
    }
}

// A walk through a value, which was begun before a value or after one.
#[derive(Drop)]
pub(crate) struct Walk<'t> {
    pub(crate) inner: Descent<'t>,
    pub(crate) ended: bool,
}

impl<'t> Walk<'t> {
    // A walk through the value that a text is.
    pub(crate) fn new(alloc: Global, text: &'t str) -> Walk<'t>
        ensures text { result.inner.text ≡ text.now }
        ensures start { (x : Tree) → (e : ℕ) → Means text.now 0 e x → Remains result (tags None x []) }
    {
        Walk {
            inner: Descent::new(alloc, Parser::new(Read::from(text))),
            ended: false,
        }
    }

    // What comes next, or `None` where the value has ended.
    #[inline(always)]
    pub(crate) fn next(&mut self, alloc: Global) -> Result<Option<Event<'t>>, Fault>
        ensures next { IfOk result (λ event. (rest : List Tag) → Remains self.old rest
            → TellsNext self.new event rest) }
        ensures text { self.new.inner.text ≡ self.old.inner.text }
        ensures later { IfOk result (λ event. IsSome event → self.old.inner.place < self.new.inner.place) }
        ensures inside { IfOk result (λ event. IsSome event → self.old.inner.place ≤ length self.old.inner.text) }
    {
        if !self.ended {
            return Ok(Some(self.item(alloc)?));
        }
        if self.inner.depth() == 0 {
            return Ok(None);
        }
        let kind = self.inner.kind();
        if self.inner.next(kind)? {
            return Ok(Some(self.item(alloc)?));
        }
        Ok(Some(Event::End(kind)))
    }

    // What the item is, or the root, that is expected.
    #[inline(always)]
    fn item(&mut self, alloc: Global) -> Result<Event<'t>, Fault>
        ensures event { IfOk result (λ event. self.old.inner.lossy ≡ strict → (rest : List Tag)
            → RemainsFromItem self.old.inner rest → TellsFirst self.new event rest) }
        ensures text { self.new.inner.text ≡ self.old.inner.text }
        ensures later { OnOk result (self.old.inner.place < self.new.inner.place) }
        ensures inside { OnOk result (self.old.inner.place ≤ length self.old.inner.text) }
    {
        let key = pass_key(&mut self.inner)?;
        let start = self.inner.offset();
        match self.inner.value(alloc)? {
            Step::Entered(kind) => {
                self.ended = false;
                Ok(Event::Begin(key, kind))
            }
            Step::Passed => {
                self.ended = true;
                let end = self.inner.offset();
                Ok(Event::Leaf(key, leaf_at(self.inner.text(), start, end)))
            }
        }
    }
}
