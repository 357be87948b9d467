// Paths that are kept, with the buffers of a walk along them.
ghost use Rattle.std.specs.Prelude.{◌≡◌, ◌≢◌, length, map, [], IfOk};
ghost use Rattle.sonic_pointer.specs.declared.rule.KeyRule.TheVariants.{First};
ghost use Rattle.sonic_text.specs.Documents.{StartsWithUtf8Value};
ghost use Rattle.sonic_c.specs.Each.{IsEachListCall, told_outcome};
ghost use Rattle.sonic_c.specs.Lists.{IsListCall};
ghost use Rattle.sonic_c.specs.Statuses.{status_ok, status_no_memory};
ghost use Rattle.sonic_c.specs.Internal.Told.{shown_outcome};

use crate::each::tell_each_unchecked;
use crate::fault::{Fault, tell};
use crate::many::tell_all;
use crate::outcome::Outcome;
use crate::span::{Span, shown};
use crate::status::{OK, WRONG_COUNT};
use sonic_find::{PathOutcome, WalkBuffers, find_each_by, find_many_by, find_many_unchecked};
use sonic_pointer::{KeyRule, PointerTree};
use std::alloc::{AllocError, Global};
use std::marker::Model;

// A tree of paths, which of equal keys counts, and where a walk puts what it finds: one that judges what
// it passes to the buffers, and one that doesn't to the slots, or to what each path is told.
#[derive(Drop)]
pub(crate) struct Kept {
    tree: PointerTree,
    rule: KeyRule,
    buffers: WalkBuffers,
    slots: Vec<Option<sonic_find::Span>>,
    told: Vec<PathOutcome<sonic_find::Span>>,
}

impl Model for Kept {
    ghost use Rattle.sonic_c.specs.Kept.{PathList};

    ghost Value = { PathList };

    ghost use Rattle.sonic_c.specs.Internal.Kept.{list_of, HasSlots};

    ghost view = { list_of };

    ghost invariant = { HasSlots };
}

impl Kept {
    pub(crate) fn new(alloc: Global, tree: PointerTree, rule: KeyRule) -> Result<Kept, AllocError>
        ensures { IfOk result (λ kept. kept ≡ record { rule = rule; paths = tree }) }
    {
        let slots = vec![in alloc; None; tree.size()]?;
        let told = vec![in alloc; PathOutcome::none(); tree.size()]?;
        let buffers = WalkBuffers::new(alloc);
        Ok(Kept {
            tree,
            rule,
            buffers,
            slots,
            told,
        })
    }

    // How many paths there are.
    pub(crate) fn len(&self) -> usize
        ensures { result ≡ length self.now.paths }
    {
        self.tree.size()
    }

    // Tells where the paths lead in a text.
    pub(crate) fn follow(
        &mut self,
        alloc: Global,
        json: &[u8],
        spans: &mut [Span],
        error: &mut Fault,
    ) -> u32
        ensures call { IsListCall json.now self.old
            (record { spans = spans.old; error = error.old })
            (record { spans = spans.new; error = error.new }) result }
        ensures no_paths { self.old.paths ≡ [] → spans.old ≡ [] → result ≡ status_ok }
        ensures kept { self.new ≡ self.old }
    {
        let len = self.len();
        if spans.len() != len {
            *error = Fault::at_line(len);
            return WRONG_COUNT;
        }
        self.walk(alloc, json, spans, error)
    }

    // The same in a text that is known to begin with a value in UTF-8.
    pub(crate) fn follow_unchecked(
        &mut self,
        alloc: Global,
        json: &[u8],
        spans: &mut [Span],
        error: &mut Fault,
    ) -> u32
        requires { StartsWithUtf8Value json.now }
        ensures call { IsListCall json.now self.old
            (record { spans = spans.old; error = error.old })
            (record { spans = spans.new; error = error.new }) result }
        ensures memory { self.old.rule ≡ First → result ≢ status_no_memory }
        ensures no_paths { self.old.paths ≡ [] → spans.old ≡ [] → result ≡ status_ok }
        ensures kept { self.new ≡ self.old }
    {
        let len = self.len();
        if spans.len() != len {
            *error = Fault::at_line(len);
            return WRONG_COUNT;
        }
        match self.rule {
            KeyRule::First => {
                walk_unchecked(json, &self.tree, self.slots.as_mut_slice(), spans, error)
            }
            _ => self.walk(alloc, json, spans, error),
        }
    }

    // Tells where the paths lead in a text, where as many spans are there. For none the text isn't read.
    fn walk(&mut self, alloc: Global, json: &[u8], spans: &mut [Span], error: &mut Fault) -> u32
        requires { length self.old.paths ≡ length spans.old }
        ensures call { IsListCall json.now self.old
            (record { spans = spans.old; error = error.old })
            (record { spans = spans.new; error = error.new }) result }
        ensures no_paths { self.old.paths ≡ [] → result ≡ status_ok }
        ensures kept { self.new ≡ self.old }
    {
        if spans.is_empty() {
            return OK;
        }
        match find_many_by(alloc, &mut self.buffers, json, &self.tree, self.rule) {
            Ok(()) => {
                fill_from_buffers(spans, &self.buffers);
                OK
            }
            Err(reason) => tell(error, &reason),
        }
    }

    // Tells each of the paths where it leads in a text.
    pub(crate) fn follow_each(
        &mut self,
        alloc: Global,
        json: &[u8],
        outcomes: &mut [Outcome],
        error: &mut Fault,
    ) -> u32
        ensures call { IsEachListCall json.now self.old
            (record { outcomes = outcomes.old; error = error.old })
            (record { outcomes = outcomes.new; error = error.new }) result }
        ensures no_paths { self.old.paths ≡ [] → outcomes.old ≡ [] → result ≡ status_ok }
        ensures kept { self.new ≡ self.old }
    {
        let len = self.len();
        if outcomes.len() != len {
            *error = Fault::at_line(len);
            return WRONG_COUNT;
        }
        self.walk_each(alloc, json, outcomes, error)
    }

    // The same in a text that is known to begin with a value in UTF-8.
    pub(crate) fn follow_each_unchecked(
        &mut self,
        alloc: Global,
        json: &[u8],
        outcomes: &mut [Outcome],
        error: &mut Fault,
    ) -> u32
        requires { StartsWithUtf8Value json.now }
        ensures call { IsEachListCall json.now self.old
            (record { outcomes = outcomes.old; error = error.old })
            (record { outcomes = outcomes.new; error = error.new }) result }
        ensures memory { self.old.rule ≡ First → result ≢ status_no_memory }
        ensures no_paths { self.old.paths ≡ [] → outcomes.old ≡ [] → result ≡ status_ok }
        ensures kept { self.new ≡ self.old }
    {
        let len = self.len();
        if outcomes.len() != len {
            *error = Fault::at_line(len);
            return WRONG_COUNT;
        }
        match self.rule {
            KeyRule::First => {
                tell_each_unchecked(json, &self.tree, self.told.as_mut_slice(), outcomes);
                OK
            }
            _ => self.walk_each(alloc, json, outcomes, error),
        }
    }

    // Tells each of the paths where it leads in a text, where as many outcomes are there. For none the
    // text isn't read.
    fn walk_each(
        &mut self,
        alloc: Global,
        json: &[u8],
        outcomes: &mut [Outcome],
        error: &mut Fault,
    ) -> u32
        requires { length self.old.paths ≡ length outcomes.old }
        ensures call { IsEachListCall json.now self.old
            (record { outcomes = outcomes.old; error = error.old })
            (record { outcomes = outcomes.new; error = error.new }) result }
        ensures no_paths { self.old.paths ≡ [] → result ≡ status_ok }
        ensures kept { self.new ≡ self.old }
    {
        if outcomes.is_empty() {
            return OK;
        }
        match find_each_by(alloc, &mut self.buffers, json, &self.tree, self.rule) {
            Ok(()) => {
                tell_from_buffers(outcomes, &self.buffers);
                OK
            }
            Err(reason) => tell(error, &reason),
        }
    }
}

// Tells where the paths of a tree lead by the first of equal keys, where as many spans are there, in a
// text that is known to begin with a value in UTF-8.
fn walk_unchecked(
    json: &[u8],
    tree: &PointerTree,
    slots: &mut [Option<sonic_find::Span>],
    spans: &mut [Span],
    error: &mut Fault,
) -> u32
    requires starts { StartsWithUtf8Value json.now }
    requires slots { length slots.old ≡ length tree.now }
    requires spans { length tree.now ≡ length spans.old }
    ensures call { IsListCall json.now (record { rule = First; paths = tree.now })
        (record { spans = spans.old; error = error.old })
        (record { spans = spans.new; error = error.new }) result }
    ensures memory { result ≢ status_no_memory }
{
    let found = find_many_unchecked(json, tree, slots);
    tell_all(found, slots, spans, error)
}

// Writes what was found to the caller's array.
fn fill_from_buffers(spans: &mut [Span], buffers: &WalkBuffers)
    requires { length buffers.now ≡ length spans.old }
    ensures { spans.new ≡ map shown_outcome buffers.now }
{
    for i in 0..buffers.len() {
        spans[i] = shown(buffers.at(i).found());
    }
}

// Writes what each path was told to the caller's array.
fn tell_from_buffers(outcomes: &mut [Outcome], buffers: &WalkBuffers)
    requires { length buffers.now ≡ length outcomes.old }
    ensures { outcomes.new ≡ map told_outcome buffers.now }
{
    for i in 0..buffers.len() {
        outcomes[i] = Outcome::of(buffers.at(i));
    }
}
