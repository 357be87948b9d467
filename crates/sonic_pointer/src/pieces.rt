// Lists of numbers that grow at any position.
ghost use Rattle.std.specs.Prelude.{◌≡◌, ◌+◌, ◌^◌, ◌<◌, ◌≤◌, ℕ, List, ◌∷◌, [], ◌++◌, IfSome, OnOk, OnErr, length, map, take, drop, slice_get, true};
ghost use Rattle.std.specs.List.{All, insert};
ghost use Rattle.sonic_pointer.specs.Internal.Pieces.{numbers_of, raised, AreStarts, IsHolder, IsWindow, IsInWindow};

use smallvec::SmallVec;
use std::alloc::{AllocError, Global};
use std::marker::Model;

// So many numbers stand in the list itself, and take no memory of their own.
pub(crate) const INLINE: usize = 2;

// A piece with so many numbers is split in halves before it grows.
pub(crate) const FULL: usize = 4096;

// A piece of a list, and how many numbers the pieces before it have.
#[derive(Debug, Drop)]
struct Piece {
    start: usize,
    numbers: Vec<usize>,
}

// Some numbers of a list, which stand in it from `start` on: who reads numbers near each other looks for
// their piece once.
#[derive(Clone, Copy)]
pub(crate) struct Window<'p> {
    start: usize,
    numbers: &'p [usize],
}

impl<'p> Window<'p> {
    // Whether the number at this position of the list is here.
    #[inline(always)]
    fn has(&self, i: usize) -> bool
        ensures { result ≡ true → IsInWindow self.now i }
    {
        self.start <= i && i - self.start < self.numbers.len()
    }

    // The number at this position of the list.
    #[inline(always)]
    fn get(&self, i: usize) -> usize
        requires { IsInWindow self.now i }
        ensures { (list : List ℕ) → IsWindow list self.now → slice_get list i ≡ Some result }
    {
        self.numbers[i - self.start]
    }
}

// A list of numbers, seen as that list. It is kept in short pieces, so that one more number at any
// position moves few others: a first piece, which is all of a short list, and those after it.
#[derive(Debug, Drop)]
pub(crate) struct Pieces {
    first: SmallVec<usize, INLINE>,
    more: Vec<Piece>,
}

impl Model for Pieces {
    ghost use Rattle.std.specs.Prelude.{ℕ, List};

    ghost Value = { List ℕ };

    ghost use Rattle.sonic_pointer.specs.Internal.Pieces.{all_numbers, ArePieces};

    ghost view = { all_numbers };

    ghost invariant = { ArePieces };
}

impl Pieces {
    // The empty list. It takes no memory.
    pub(crate) fn new(alloc: Global) -> Pieces
        ensures { result ≡ [] }
    {
        Pieces {
            first: SmallVec::new(alloc),
            more: Vec::new(alloc),
        }
    }

    // The list of this number. It takes no memory.
    pub(crate) fn of_one(alloc: Global, number: usize) -> Pieces
        ensures { result ≡ number ∷ [] }
    {
        let mut first = SmallVec::new(alloc);
        first.push_reserved(number);
        Pieces {
            first,
            more: Vec::new(alloc),
        }
    }

    pub(crate) fn len(&self) -> usize
        ensures { result ≡ length self.now }
    {
        match self.more.last() {
            None => self.first.len(),
            Some(last) => self.first.len() + (last.start + last.numbers.len()),
        }
    }

    pub(crate) fn get(&self, i: usize) -> usize
        requires { i < length self.now }
        ensures { slice_get self.now i ≡ Some result }
    {
        self.window_at(i).get(i)
    }

    // The numbers of the first piece.
    #[inline(always)]
    pub(crate) fn first_window(&self) -> Window<'_>
        ensures { IsWindow self.now result }
    {
        Window {
            start: 0,
            numbers: self.first.as_slice(),
        }
    }

    // The number at this position: of the window that is near, if it has it, else of another, which is
    // near then.
    #[inline(always)]
    pub(crate) fn get_near<'p>(&'p self, i: usize, near: &mut Window<'p>) -> usize
        requires inside { i < length self.now }
        requires window { IsWindow self.now near.old }
        ensures number { slice_get self.now i ≡ Some result }
        ensures window { IsWindow self.now near.new }
    {
        if !near.has(i) {
            *near = self.window_at(i);
        }
        near.get(i)
    }

    // The numbers of the piece that has this position.
    fn window_at(&self, i: usize) -> Window<'_>
        requires { i < length self.now }
        ensures window { IsWindow self.now result }
        ensures here { IsInWindow result i }
    {
        let first = self.first.as_slice();
        if i < first.len() {
            return Window {
                start: 0,
                numbers: first,
            };
        }
        let piece = &self.more[holder(&self.more, i - first.len())];
        Window {
            start: first.len() + piece.start,
            numbers: piece.numbers.as_slice(),
        }
    }

    // All numbers, where the first piece has them.
    #[inline(always)]
    pub(crate) fn in_one_piece(&self) -> Option<&[usize]>
        ensures { IfSome result (λ numbers. numbers.now ≡ self.now) }
    {
        if !self.more.is_empty() {
            return None;
        }
        Some(self.first.as_slice())
    }

    pub(crate) fn first(&self) -> Option<usize>
        ensures { result ≡ slice_get self.now 0 }
    {
        if self.len() == 0 {
            return None;
        }
        Some(self.get(0))
    }

    // Puts the number at this position; out of memory, nothing changes.
    pub(crate) fn insert(&mut self, position: usize, number: usize) -> Result<(), AllocError>
        requires { position ≤ length self.old }
        ensures ok { OnOk result (self.new ≡ insert self.old position number) }
        ensures err { OnErr result (self.new ≡ self.old) }
    {
        if self.len() == usize::MAX {
            return Err(AllocError);
        }
        halve_first(&mut self.first, &mut self.more)?;
        if position <= self.first.len() {
            self.first.insert(position, number)?;
            return Ok(());
        }
        put(&mut self.more, position - self.first.len(), number)
    }
}

// The last piece that begins at or before the position.
fn holder(pieces: &[Piece], position: usize) -> usize
    requires starts { AreStarts 0 pieces.now }
    requires some { 0 < length pieces.now }
    ensures { IsHolder pieces.now position result }
{
    let mut low = 0;
    let mut high = pieces.len();
    while low + 1 < high {
        let middle = low + (high - low) / 2;
        if pieces[middle].start <= position {
            low = middle;
        } else {
            high = middle;
        }
    }
    low
}

// So many numbers more come before each piece from this one on.
fn raise(pieces: &mut Vec<Piece>, from: usize, by: usize)
    requires inside { from ≤ length pieces.old.items }
    requires fits { All (λ piece. piece.start + by < 2 ^ 64) (drop from pieces.old.items) }
    ensures { pieces.new.items
        ≡ take from pieces.old.items ++ map (raised by) (drop from pieces.old.items) }
{
    for k in from..pieces.len() {
        pieces[k].start += by;
    }
}

// The first piece, if it is full, leaves its second half to a new one.
fn halve_first(first: &mut SmallVec<usize, INLINE>, more: &mut Vec<Piece>) -> Result<(), AllocError>
    requires starts { AreStarts 0 more.old.items }
    requires fits { length first.old.items + length (numbers_of more.old.items) < 2 ^ 64 }
    ensures starts { AreStarts 0 more.new.items }
    ensures same { first.new.items ++ numbers_of more.new.items
        ≡ first.old.items ++ numbers_of more.old.items }
{
    if first.len() < FULL {
        return Ok(());
    }
    more.reserve(1)?;
    let numbers = Vec::from_slice(*first.allocator(), &first[FULL / 2..])?;
    first.truncate(FULL / 2);
    let len = numbers.len();
    more.insert(0, Piece { start: 0, numbers })?;
    raise(more, 1, len);
    Ok(())
}

// The piece with this number, if it is full, leaves its second half to a new one.
fn halve(pieces: &mut Vec<Piece>, k: usize) -> Result<(), AllocError>
    requires inside { k < length pieces.old.items }
    requires starts { AreStarts 0 pieces.old.items }
    requires fits { length (numbers_of pieces.old.items) < 2 ^ 64 }
    ensures starts { AreStarts 0 pieces.new.items }
    ensures same { numbers_of pieces.new.items ≡ numbers_of pieces.old.items }
    ensures grows { length pieces.old.items ≤ length pieces.new.items }
{
    if pieces[k].numbers.len() < FULL {
        return Ok(());
    }
    pieces.reserve(1)?;
    let piece = &mut pieces[k];
    let half = piece.numbers.len() / 2;
    let start = piece.start + half;
    let numbers = piece.numbers.split_off(half)?;
    pieces.insert(k + 1, Piece { start, numbers })?;
    Ok(())
}

// Puts the number at this position, into the piece that is found for it; out of memory, the
// pieces have the same numbers.
fn put_at(
    pieces: &mut Vec<Piece>,
    k: usize,
    position: usize,
    number: usize,
) -> Result<(), AllocError>
    requires starts { AreStarts 0 pieces.old.items }
    requires here { IsHolder pieces.old.items position k }
    requires inside { position ≤ length (numbers_of pieces.old.items) }
    requires fits { length (numbers_of pieces.old.items) + 1 < 2 ^ 64 }
    ensures starts { AreStarts 0 pieces.new.items }
    ensures ok { OnOk result (numbers_of pieces.new.items
        ≡ insert (numbers_of pieces.old.items) position number) }
    ensures err { OnErr result (numbers_of pieces.new.items ≡ numbers_of pieces.old.items) }
{
    let piece = &mut pieces[k];
    piece.numbers.insert(position - piece.start, number)?;
    raise(pieces, k + 1, 1);
    Ok(())
}

// Puts the number at this position; out of memory, the pieces have the same numbers.
fn put(pieces: &mut Vec<Piece>, position: usize, number: usize) -> Result<(), AllocError>
    requires some { 0 < length pieces.old.items }
    requires starts { AreStarts 0 pieces.old.items }
    requires inside { position ≤ length (numbers_of pieces.old.items) }
    requires fits { length (numbers_of pieces.old.items) + 1 < 2 ^ 64 }
    ensures starts { AreStarts 0 pieces.new.items }
    ensures ok { OnOk result (numbers_of pieces.new.items
        ≡ insert (numbers_of pieces.old.items) position number) }
    ensures err { OnErr result (numbers_of pieces.new.items ≡ numbers_of pieces.old.items) }
{
    let full = holder(pieces, position);
    halve(pieces, full)?;
    let k = holder(pieces, position);
    put_at(pieces, k, position, number)
}
