// Rows of a table whose paths are keys, by a quick look at each item.
//
// It finds no fault: an item that isn't what it looks for is left to the walk.
ghost use Rattle.std.specs.Prelude.{◌≡◌, ◌≢◌, ◌+◌, ◌-◌, ◌<◌, ◌≤◌, ◌∷◌, ◌++◌, [], ℕ, List, length, map, IfOk, IfSome, IsTrue, IsFalse, OnOk, OnSome, Some, slice_get};
ghost use Rattle.sonic_text.specs.Paths.{Path};
ghost use Rattle.sonic_text.specs.Places.{byte, after_space};
ghost use Rattle.sonic_text.specs.Strings.{strict};
ghost use Rattle.sonic_text.specs.Values.{IsValue};
ghost use Rattle.sonic_pointer.specs.declared.rule.KeyRule.TheVariants.{First};
ghost use Rattle.sonic_find.specs.Internal.Columns.{key_path, keys_of, told_before, AreFor, AreKnown, AreReady, HasRows, HasRowsUpTo, HasMembers, HasMembersUpTo, IsBlank, IsColumnKey, IsKept, IsKnown, IsObjectRow};

use crate::outcome::PathOutcome;
use crate::span::Span;
use crate::state::Walk;
use crate::table::{Table, TableItem};
use sonic_parser::internal::{after_comma, short_scalar};
use sonic_pointer::{KeyRule, PointerNode, TreeView};
use sonic_text::internal::short_string;
use sonic_text::{Kind, same_key, skip_space};
use std::alloc::{AllocError, Global};
use std::simd::prelude::*;

// At most so many columns are looked through, and so many keys of items are known.
const MOST: usize = 32;

// So many bytes lie ahead of each key, so that what is short ends before the text does.
const AHEAD: usize = 128;

// A key that some item had.
#[derive(Clone, Copy)]
struct KnownKey {
    // Where it begins.
    start: usize,
    // How many bytes it has, with its quotes and the colon directly behind them.
    length: usize,
    // The number of its column, or of all columns if it has none.
    column: usize,
}

impl KnownKey {
    // Whether the key, if it has thirty-two bytes at most, is at this place, too.
    #[inline(always)]
    fn is_at(&self, text: &[u8], place: usize) -> bool
        requires here { place + 32 ≤ length text.now }
        requires there { self.now.start + 32 ≤ length text.now }
        ensures { IsTrue result → (k : ℕ) → k < self.now.length
            → byte text.now (place + k) ≡ byte text.now (self.now.start + k) }
    {
        let same = same_bytes(text, place, self.start);
        if same >= self.length {
            return true;
        }
        same >= 16 && 16 + same_bytes(text, place + 16, self.start + 16) >= self.length
    }
}

// The columns of a table each of whose paths is a key.
#[derive(Drop)]
pub(crate) struct Columns<'t> {
    // The key of each column.
    keys: Vec<&'t str>,
    // Keys that items had, in the order in which they were met.
    known: Vec<KnownKey>,
    // What each column has in the item that is looked at, as far as it was.
    row: Vec<PathOutcome<Span>>,
}

impl<'t> Columns<'t> {
    // The columns of a tree with so many paths, if these are few, each is a key, and the first of equal keys
    // counts.
    pub(crate) fn new(
        alloc: Global,
        view: &TreeView<'t>,
        rule: KeyRule,
        paths: usize,
    ) -> Result<Option<Columns<'t>>, AllocError>
        requires root { view.now.prefix ≡ [] }
        requires paths { paths ≡ length view.now.paths }
        ensures { IfOk result (λ columns. IfSome columns
            (λ x. (t : List ℕ) → AreFor rule t view.now.paths x)) }
    {
        let KeyRule::First = rule else {
            return Ok(None);
        };
        if paths > MOST {
            return Ok(None);
        }
        let Some(keys) = keys_of(alloc, view, paths)? else {
            return Ok(None);
        };
        let mut row = Vec::new(alloc);
        row.resize(paths, PathOutcome::none())?;
        let known = Vec::new(alloc);
        Ok(Some(Columns { keys, known, row }))
    }

    // Adds the rows of the items of an array from the one on at which the walk is, up to one that isn't
    // passed so: whether the walk is then behind an item, or where one is expected.
    #[inline(never)]
    pub(crate) fn add_rows(
        &mut self,
        walk: &mut Walk<'_>,
        table: &mut Table,
    ) -> Result<bool, AllocError>
        requires { AreReady walk.old.text self.old }
        ensures kept { self.new ≡ record self.old { known = self.new.known; row = self.new.row } }
        ensures ready { OnOk result (AreReady walk.old.text self.new) }
        ensures moved { walk.new ≡ record walk.old { place = walk.new.place } }
        ensures later { OnOk result (walk.old.place ≤ walk.new.place) }
        ensures behind { IfOk result (λ behind. (paths : List Path) (i : ℕ)
            → map key_path (keys_of self.old) ≡ paths
            → HasRows First walk.old.text paths Kind.Array i table.old walk.old.place
            → IsTrue behind → HasRowsUpTo First walk.old.text paths Kind.Array i table.new walk.new.place) }
        ensures expected { IfOk result (λ behind. (paths : List Path) (i : ℕ)
            → map key_path (keys_of self.old) ≡ paths
            → HasRows First walk.old.text paths Kind.Array i table.old walk.old.place
            → IsFalse behind → HasRows First walk.old.text paths Kind.Array i table.new walk.new.place) }
    {
        let text = walk.text();
        let mut place = walk.place();
        'rows: loop {
            let Some(end) = self.pass_row(walk, place) else {
                self.clear();
                walk.set_place(place);
                return Ok(false);
            };
            let value = Span { start: place, end };
            self.reserve(table, text.len() - place, end - place)?;
            self.push_row(table, value)?;
            let Some(next) = after_comma(text, end) else {
                walk.set_place(end);
                return Ok(true);
            };
            place = next;
        }
    }

    // Takes memory at the first row for those of so many bytes, if all are as long as it, within limits.
    #[inline(always)]
    fn reserve(&self, table: &mut Table, bytes: usize, first: usize) -> Result<(), AllocError>
        requires { 0 < first }
        ensures items { table.new.items.items ≡ table.old.items.items }
        ensures outcomes { table.new.outcomes.items ≡ table.old.outcomes.items }
    {
        if !table.items.is_empty() {
            return Ok(());
        }
        let rows = (bytes / first).min(1024);
        table.items.reserve(rows)?;
        table.outcomes.reserve(rows.saturating_mul(self.row.len()))
    }

    // Adds the row of a value, and begins anew.
    #[inline(always)]
    fn push_row(&mut self, table: &mut Table, value: Span) -> Result<(), AllocError>
        requires { 0 < value.end }
        ensures items { OnOk result (table.new.items.items
            ≡ table.old.items.items ++ record { key = None; value = value } ∷ []) }
        ensures row { OnOk result (table.new.outcomes.items
            ≡ table.old.outcomes.items ++ map (told_before (value.end - 1)) self.old.row.items) }
        ensures kept { self.new ≡ record self.old { row = self.new.row } }
        ensures long { OnOk result (length self.new.row.items ≡ length self.old.row.items) }
        ensures blank { OnOk result (IsBlank self.new.row.items) }
    {
        table.items.push(TableItem { key: None, value })?;
        let brace = value.end - 1;
        let row = self.row.as_mut_slice();
        for column in 0..row.len() {
            let told = told_before(brace, row[column]);
            row[column] = PathOutcome::none();
            table.outcomes.push(told)?;
        }
        Ok(())
    }

    // Forgets what each column has.
    fn clear(&mut self)
        ensures kept { self.new ≡ record self.old { row = self.new.row } }
        ensures long { length self.new.row.items ≡ length self.old.row.items }
        ensures blank { IsBlank self.new.row.items }
    {
        self.row.fill(PathOutcome::none());
    }

    // Passes the object at a place, if it is one: its end, where the row is what the columns have in it.
    #[inline(always)]
    fn pass_row(&mut self, walk: &mut Walk<'_>, start: usize) -> Option<usize>
        requires within { start ≤ length walk.old.text }
        requires ready { AreReady walk.old.text self.old }
        ensures row { IfSome result (IsObjectRow walk.old.text start (keys_of self.old) self.new.row.items) }
        ensures kept { self.new ≡ record self.old { known = self.new.known; row = self.new.row } }
        ensures long { length self.new.row.items ≡ length self.old.row.items }
        ensures known { AreKnown walk.old.text (keys_of self.old) self.new.known.items }
        ensures moved { walk.new ≡ record walk.old { place = walk.new.place } }
    {
        let text = walk.text();
        if text.len() - start < AHEAD || text[start] != b'{' {
            return None;
        }
        let mut key = near_space(text, start + 1)?;
        if text[key] != b'"' {
            return None;
        }
        let mut guess = 0;
        'members: loop {
            if text.len() - key < AHEAD {
                return None;
            }
            let (number, end) = self.pass_member(walk, text, key, guess)?;
            guess = number + 1;
            let after = near_space(text, end)?;
            match text[after] {
                b',' => key = near_space(text, after + 1)?,
                b'}' => return Some(after + 1),
                _ => return None,
            }
        }
    }

    // Passes the member at a place: the number of its key among those that are known, and the end of its
    // value.
    #[inline(always)]
    fn pass_member(
        &mut self,
        walk: &mut Walk<'_>,
        text: &[u8],
        key: usize,
        guess: usize,
    ) -> Option<(usize, usize)>
        requires same { text.now ≡ walk.old.text }
        requires near { key + 128 ≤ length text.now }
        requires known { AreKnown text.now (keys_of self.old) self.old.known.items }
        ensures number { IfSome result (λ x. x.0 < length self.new.known.items) }
        ensures near { IfSome result (λ x. (key < x.1) × (x.1 + 14 ≤ length text.now)) }
        ensures members { IfSome result (λ x. (i : ℕ)
            → HasMembers text.now i (keys_of self.old) self.old.row.items key
            → HasMembersUpTo text.now i (keys_of self.old) self.new.row.items x.1) }
        ensures known { AreKnown text.now (keys_of self.old) self.new.known.items }
        ensures kept { self.new ≡ record self.old { known = self.new.known; row = self.new.row } }
        ensures long { length self.new.row.items ≡ length self.old.row.items }
        ensures moved { walk.new ≡ record walk.old { place = walk.new.place } }
    {
        let number = self.known_key(text, key, guess)?;
        let KnownKey { length, column, .. } = self.known[number];
        let value = near_space(text, key + length)?;
        let end = pass_value(walk, text, value)?;
        self.keep(column, Span { start: value, end });
        Some((number, end))
    }

    // Keeps a value for its column, if that has none.
    #[inline(always)]
    fn keep(&mut self, column: usize, value: Span)
        ensures kept { self.new ≡ record self.old { row = self.new.row } }
        ensures row { IsKept self.old.row.items column value self.new.row.items }
    {
        if column < self.row.len()
            && let PathOutcome::Missing(_) = self.row[column]
        {
            self.row[column] = PathOutcome::Found(value);
        }
    }

    // The number of the key at a place among those that are known, which is perhaps the guess.
    #[inline(always)]
    fn known_key(&mut self, text: &[u8], place: usize, guess: usize) -> Option<usize>
        requires near { place + 128 ≤ length text.now }
        requires known { AreKnown text.now (keys_of self.old) self.old.known.items }
        ensures number { IfSome result (λ number. number < length self.new.known.items) }
        ensures key { IfSome result (λ number. (x : KnownKey) → slice_get self.new.known.items number ≡ Some x
            → IsColumnKey text.now (keys_of self.old) place x.length x.column) }
        ensures known { AreKnown text.now (keys_of self.old) self.new.known.items }
        ensures kept { self.new ≡ record self.old { known = self.new.known } }
    {
        if guess < self.known.len() && self.known[guess].is_at(text, place) {
            return Some(guess);
        }
        self.other_key(text, place)
    }

    // Forgets the keys that are known, if they are many.
    fn make_room(&mut self)
        ensures kept { self.new ≡ record self.old { known = self.new.known } }
        ensures fewer { (n : ℕ) (x : KnownKey) → slice_get self.new.known.items n ≡ Some x
            → slice_get self.old.known.items n ≡ Some x }
    {
        if self.known.len() >= MOST {
            self.known.clear();
        }
    }

    // The number of the key at a place, which is known from now on.
    #[inline(never)]
    fn other_key(&mut self, text: &[u8], place: usize) -> Option<usize>
        requires near { place + 128 ≤ length text.now }
        requires known { AreKnown text.now (keys_of self.old) self.old.known.items }
        ensures number { IfSome result (λ number. number < length self.new.known.items) }
        ensures key { IfSome result (λ number. (x : KnownKey) → slice_get self.new.known.items number ≡ Some x
            → IsColumnKey text.now (keys_of self.old) place x.length x.column) }
        ensures known { AreKnown text.now (keys_of self.old) self.new.known.items }
        ensures kept { self.new ≡ record self.old { known = self.new.known } }
    {
        for number in 0..self.known.len() {
            if self.known[number].is_at(text, place) {
                return Some(number);
            }
        }
        let found = look_up(text, place, self.keys.as_slice())?;
        self.make_room();
        let number = self.known.len();
        match self.known.push(found) {
            Ok(()) => Some(number),
            Err(_) => None,
        }
    }
}

// What is told of a column, where the closing brace is at this place.
#[inline(always)]
fn told_before(brace: usize, slot: PathOutcome<Span>) -> PathOutcome<Span>
    ensures { result ≡ told_before brace slot }
{
    match slot {
        PathOutcome::Found(value) => PathOutcome::Found(value),
        PathOutcome::Missing(_) | PathOutcome::Fails(_) => PathOutcome::Missing(brace),
    }
}

// The key of each path, if each path is one key.
fn keys_of<'t>(
    alloc: Global,
    view: &TreeView<'t>,
    paths: usize,
) -> Result<Option<Vec<&'t str>>, AllocError>
    requires root { view.now.prefix ≡ [] }
    requires paths { paths ≡ length view.now.paths }
    ensures { IfOk result (λ keys. IfSome keys (λ x. map key_path (map (λ k. k.now) x.items) ≡ view.now.paths)) }
{
    let mut found = Vec::new(alloc);
    found.resize(paths, None)?;
    for i in 0..view.count() {
        let (node, child) = view.child(i);
        if let PointerNode::Key(key) = node {
            for order in child.orders() {
                found[*order] = Some(key);
            }
        }
    }
    let mut keys = Vec::new(alloc);
    for key in &found {
        let Some(key) = key else {
            return Ok(None);
        };
        keys.push(*key)?;
    }
    Ok(Some(keys))
}

// The key at a place, for which a column is looked up.
#[inline(never)]
fn look_up(text: &[u8], place: usize, keys: &[&str]) -> Option<KnownKey>
    requires { place + 128 ≤ length text.now }
    ensures known { IfSome result (IsKnown text.now (map (λ k. k.now) keys.now)) }
    ensures here { IfSome result (λ x. x.start ≡ place) }
{
    if text[place] != b'"' {
        return None;
    }
    let end = short_string(text, place)?;
    if text[end] != b':' {
        return None;
    }
    let mut column = keys.len();
    for number in 0..keys.len() {
        if same_key(text, place, end, keys[number]) {
            if column < keys.len() {
                return None;
            }
            column = number;
        }
    }
    Some(KnownKey {
        start: place,
        length: end + 1 - place,
        column,
    })
}

// The end of the value at a place, if some bytes more come behind it.
#[inline(always)]
fn pass_value(walk: &mut Walk<'_>, text: &[u8], place: usize) -> Option<usize>
    requires same { text.now ≡ walk.old.text }
    requires near { place + 64 ≤ length text.now }
    ensures value { IfSome result (IsValue strict text.now place) }
    ensures near { IfSome result (λ end. end + 14 ≤ length text.now) }
    ensures moved { walk.new ≡ record walk.old { place = walk.new.place } }
{
    if let Some(end) = short_scalar(text, place) {
        return Some(end);
    }
    pass_long_value(walk, text, place)
}

// The end of the value at a place, by the walk.
#[inline(never)]
fn pass_long_value(walk: &mut Walk<'_>, text: &[u8], place: usize) -> Option<usize>
    requires same { text.now ≡ walk.old.text }
    requires within { place ≤ length text.now }
    ensures value { IfSome result (IsValue strict text.now place) }
    ensures near { IfSome result (λ end. end + 14 ≤ length text.now) }
    ensures moved { walk.new ≡ record walk.old { place = walk.new.place } }
{
    let end = walk.skip_at(place)?;
    if text.len() - end < AHEAD {
        None
    } else {
        Some(end)
    }
}

// The first place from `start` on that holds no white space, if it is at once there or far before the end.
#[inline(always)]
fn near_space(text: &[u8], start: usize) -> Option<usize>
    requires { start + 2 ≤ length text.now }
    ensures space { IfSome result (λ place. place ≡ after_space text.now start) }
    ensures near { IfSome result (λ place. (n : ℕ) → n ≤ 128 → start + n + 1 ≤ length text.now
        → place + n ≤ length text.now) }
{
    if text[start] > b' ' {
        return Some(start);
    }
    if text[start] == b' ' && text[start + 1] > b' ' {
        return Some(start + 1);
    }
    far_space(text, start)
}

// The same, behind any white space.
#[inline(never)]
fn far_space(text: &[u8], start: usize) -> Option<usize>
    requires { start ≤ length text.now }
    ensures space { IfSome result (λ place. place ≡ after_space text.now start) }
    ensures far { IfSome result (λ place. place + 128 ≤ length text.now) }
{
    let place = skip_space(text, start);
    if text.len() - place < AHEAD {
        None
    } else {
        Some(place)
    }
}

// How many of the sixteen bytes from one place on are those from another on, up to the first that isn't.
#[inline(always)]
fn same_bytes(text: &[u8], left: usize, right: usize) -> usize
    requires left { left + 16 ≤ length text.now }
    requires right { right + 16 ≤ length text.now }
    ensures few { result ≤ 16 }
    ensures same { (k : ℕ) → k < result → byte text.now (left + k) ≡ byte text.now (right + k) }
{
    let left = u8x16::from_slice(&text[left..]);
    let right = u8x16::from_slice(&text[right..]);
    let others = left.simd_ne(right).to_bitmask() as u16;
    others.trailing_zeros() as usize
}
