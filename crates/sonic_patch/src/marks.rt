// Marks of values, by one walk through a text.
ghost use Rattle.std.specs.Prelude.{◌≡◌, ℕ, List, [], ◌∷◌, Option, None, length, map, IfOk, OnOk};
ghost use Rattle.std.specs.BTreeMap.{BTreeMap};
ghost use Rattle.sonic_text.specs.Trees.{Tree, Means};
ghost use Rattle.sonic_text.specs.Trees.Items.{no_item};
ghost use Rattle.sonic_patch.specs.declared.shape.Shape.{Shape};
ghost use Rattle.sonic_patch.specs.Internal.Marks.{AreNumbers, Signature, IsSignature, IsTreeMark, IsSetOf, Names, signature_of, label_signature, second};
ghost use Rattle.sonic_patch.specs.Internal.Stacks.{Cell, IsShapeOf, IsTaken, Represents, close_up, done_cell, step};
ghost use Rattle.sonic_patch.specs.Internal.Tags.{Tag};
ghost use Rattle.sonic_patch.specs.Internal.Walks.{IsKeyLabel, IsLeaf, TellsTag};

use crate::shape::{Numbers, Shape};
use crate::walk::{Event, Leaf, Walk};
use crate::word::denoted;
use sonic_parser::Fault;
use sonic_text::Kind;
use std::alloc::{AllocError, Global};
use std::collections::BTreeSet;

// A value that was passed, by the marks of its key and of itself, or a container that is open, by the
// mark of its key.
#[derive(Clone, Copy)]
pub(crate) enum Slot {
    Done(usize, usize),
    Begun(usize),
}

// The mark of a key, as of a string; where there is none, that of null.
fn key_mark(alloc: Global, numbers: &mut Numbers, key: Option<&[u8]>) -> Result<usize, AllocError>
    requires numbers { AreNumbers numbers.old.given }
    requires key { (l : Option (List ℕ)) × IsKeyLabel key l }
    ensures kept { AreNumbers numbers.new.given }
    ensures more { (f : Signature) → (n : ℕ) → Names numbers.old.given f n → Names numbers.new.given f n }
    ensures mark { IfOk result (λ n. (l : Option (List ℕ)) → IsKeyLabel key.entry l
        → Names numbers.new.given (label_signature l) n) }
{
    match key {
        None => numbers.number(Shape::Null),
        Some(key) => {
            let bytes = denoted(alloc, key)?;
            numbers.number(Shape::Text(bytes))
        }
    }
}

// What a value without parts is.
fn leaf_shape(alloc: Global, leaf: Leaf<'_>) -> Result<Shape, AllocError>
    requires { (x : Tree) × IsLeaf leaf x }
    ensures { IfOk result (λ shape. (x : Tree) → IsLeaf leaf.entry x → (numbers : BTreeMap Shape ℕ)
        → IsSignature (Names numbers) x (signature_of shape)) }
{
    match leaf {
        Leaf::Null => Ok(Shape::Null),
        Leaf::Truth(truth) => Ok(Shape::Truth(truth)),
        Leaf::Number(number) => {
            let mut bytes = Vec::new(alloc);
            bytes.extend_from_slice(number)?;
            Ok(Shape::Number(bytes))
        }
        Leaf::Text(word) => Ok(Shape::Text(denoted(alloc, word)?)),
        Leaf::Empty(kind) => {
            let pairs = Vec::new(alloc);
            container_shape(alloc, kind, pairs.as_slice())
        }
    }
}

// The marks of elements.
fn elements(alloc: Global, pairs: &[(usize, usize)]) -> Result<Vec<usize>, AllocError>
    ensures { IfOk result (λ marks. marks.items ≡ map second pairs.now) }
{
    let mut marks = Vec::new(alloc);
    for pair in pairs {
        marks.push(pair.1)?;
    }
    Ok(marks)
}

// The marks of members, each pair once.
fn members(alloc: Global, pairs: &[(usize, usize)]) -> Result<BTreeSet<(usize, usize)>, AllocError>
    ensures { IfOk result (IsSetOf pairs.now) }
{
    let mut set = BTreeSet::new(alloc);
    for pair in pairs {
        set.insert((pair.0, pair.1))?;
    }
    Ok(set)
}

// What a container is by the marks of its items, the last item first.
fn container_shape(alloc: Global, kind: Kind, pairs: &[(usize, usize)]) -> Result<Shape, AllocError>
    ensures { IfOk result (IsShapeOf kind pairs.now) }
{
    match kind {
        Kind::Array => Ok(Shape::Elements(elements(alloc, pairs)?)),
        Kind::Object => Ok(Shape::Members(pairs.len(), members(alloc, pairs)?)),
    }
}

// Takes the container that was opened last, with its items, the last item first: the mark of its key.
fn take_open(slots: &mut Vec<Slot>, pairs: &mut Vec<(usize, usize)>) -> Result<usize, AllocError>
    requires { pairs.old.items ≡ [] }
    ensures { IfOk result (λ mark. (numbers : BTreeMap Shape ℕ) → (cells : List Cell)
        → Represents numbers cells slots.old.items → IsTaken numbers cells slots.new.items pairs.new.items mark) }
{
    'slots: while let Some(slot) = slots.pop() {
        match slot {
            Slot::Done(label, mark) => pairs.push((label, mark))?,
            Slot::Begun(label) => return Ok(label),
        }
    }
    Err(AllocError)
}

// Ends the container that was opened last.
fn end(
    alloc: Global,
    numbers: &mut Numbers,
    slots: &mut Vec<Slot>,
    kind: Kind,
) -> Result<(), AllocError>
    requires { AreNumbers numbers.old.given }
    ensures kept { AreNumbers numbers.new.given }
    ensures more { (f : Signature) → (n : ℕ) → Names numbers.old.given f n → Names numbers.new.given f n }
    ensures slots { OnOk result ((cells : List Cell) → Represents numbers.old.given cells slots.old.items
        → Represents numbers.new.given (close_up kind no_item cells) slots.new.items) }
{
    let mut pairs = Vec::new(alloc);
    let label = take_open(slots, &mut pairs)?;
    let shape = container_shape(alloc, kind, pairs.as_slice())?;
    let mark = numbers.number(shape)?;
    slots.push(Slot::Done(label, mark))?;
    Ok(())
}

// Takes in what a walk comes to.
fn take_in(
    alloc: Global,
    numbers: &mut Numbers,
    slots: &mut Vec<Slot>,
    event: Event<'_>,
) -> Result<(), AllocError>
    requires numbers { AreNumbers numbers.old.given }
    requires event { (tag : Tag) × TellsTag event tag }
    ensures kept { AreNumbers numbers.new.given }
    ensures more { (f : Signature) → (n : ℕ) → Names numbers.old.given f n → Names numbers.new.given f n }
    ensures slots { OnOk result ((tag : Tag) → TellsTag event.entry tag → (cells : List Cell)
        → Represents numbers.old.given cells slots.old.items
        → Represents numbers.new.given (step tag cells) slots.new.items) }
{
    match event {
        Event::Leaf(key, leaf) => {
            let label = key_mark(alloc, numbers, key)?;
            let shape = leaf_shape(alloc, leaf)?;
            let mark = numbers.number(shape)?;
            slots.push(Slot::Done(label, mark))?;
            Ok(())
        }
        Event::Begin(key, _) => {
            let label = key_mark(alloc, numbers, key)?;
            slots.push(Slot::Begun(label))?;
            Ok(())
        }
        Event::End(kind) => end(alloc, numbers, slots, kind),
    }
}

// The mark of the one value that was passed.
fn root(slots: &mut Vec<Slot>) -> Result<usize, AllocError>
    ensures { IfOk result (λ mark. (numbers : BTreeMap Shape ℕ) → (x : Tree)
        → Represents numbers (done_cell None x ∷ []) slots.old.items → IsTreeMark (Names numbers) x mark) }
{
    match slots.pop() {
        None => Err(AllocError),
        Some(slot) => match slot {
            Slot::Done(_, mark) => Ok(mark),
            Slot::Begun(_) => Err(AllocError),
        },
    }
}

// The mark of the value that a text is.
pub(crate) fn mark_of(alloc: Global, numbers: &mut Numbers, text: &str) -> Result<usize, Fault>
    requires numbers { AreNumbers numbers.old.given }
    requires text { (x : Tree) × Means text.now 0 (length text.now) x }
    ensures kept { AreNumbers numbers.new.given }
    ensures more { (f : Signature) → (n : ℕ) → Names numbers.old.given f n → Names numbers.new.given f n }
    ensures mark { IfOk result (λ mark. (x : Tree) → Means text.now 0 (length text.now) x
        → IsTreeMark (Names numbers.new.given) x mark) }
{
    let mut walk = Walk::new(alloc, text);
    let mut slots = Vec::new(alloc);
    'parts: while let Some(event) = walk.next(alloc)? {
        take_in(alloc, numbers, &mut slots, event)?;
    }
    let mark = root(&mut slots)?;
    Ok(mark)
}
