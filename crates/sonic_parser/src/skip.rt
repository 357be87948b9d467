// The loop that skips a container, however deep it is.
ghost use Rattle.std.specs.Prelude.{◌≡◌, ◌<◌, ◌≤◌, ℕ, Bool, length, take, vec_len, IfOk, IfErr};
ghost use Rattle.sonic_text.specs.Values.{IsValue};
ghost use Rattle.sonic_text.specs.Faults.{IsFault};
ghost use Rattle.sonic_parser.specs.Faults.{IsStopFor};
ghost use Rattle.sonic_parser.specs.Internal.Skipping.{IsItemFault, IsReached, IsOngoing, place_of};
ghost use Rattle.sonic_parser.specs.OpenContainers.{IsItemEnded};
ghost use Rattle.sonic_parser.specs.Parts.{IsItem};

use crate::begin::{ValueStart, begin};
use crate::container::{AfterItem, key_end, next_item};
use crate::fault::Fault;
use crate::quick::close_quickly;
use sonic_text::internal::stop_at;
use sonic_text::{Kind, Stop, skip_space};

// The place where the value is expected of the item that is expected at a place.
#[inline]
#[tactic(auto, using(crate::proofs::BeginningLemmas::items))]
pub(crate) fn item_value(text: &[u8], place: usize, kind: Kind, lossy: bool) -> Result<usize, Stop>
    requires { place ≤ length text.now }
    ensures ok { IfOk result (λ value. IsItem lossy text.now kind place value) }
    ensures err { IfErr result (λ s. IsItemFault lossy text.now kind place s) }
{
    match kind {
        Kind::Array => Ok(place),
        Kind::Object => Ok(key_end(text, place, lossy)?.1),
    }
}

// How far the items of the open containers fit.
#[derive(Clone, Copy)]
pub(crate) enum Reached {
    // Up to here, where an item of the innermost is expected.
    Expected(usize),
    // Up to here, where the value of an item of the innermost ended, and neither a comma nor the
    // closing bracket comes.
    Ended(usize),
    // To here, where the outermost ended.
    Closed(usize),
}

// How far they fit, and how many containers are open there.
#[derive(Clone, Copy)]
pub(crate) struct Extent {
    pub(crate) reached: Reached,
    pub(crate) depth: usize,
}

impl Extent {
    // So far, with so many containers open.
    #[inline(always)]
    pub(crate) fn new(reached: Reached, depth: usize) -> Extent
        ensures { result ≡ record { reached = reached; depth = depth } }
    {
        Extent { reached, depth }
    }
}

// How the innermost container that is still open goes on, after the value of an item ended at a
// place.
//
// `kinds` begins with the kinds of the containers that are open, the outermost first; so many are.
#[inline(always)]
pub(crate) fn leave(text: &[u8], kinds: &[Kind], depth: usize, ended: usize) -> Extent
    requires within { ended ≤ length text.now }
    requires some { 0 < depth }
    requires room { depth ≤ length kinds.now }
    ensures fewer { result.depth ≤ depth }
    ensures some { IsOngoing result.depth result.reached }
    ensures within { place_of result.reached ≤ length text.now }
    ensures further { (h : ℕ) → result.reached ≡ Reached.Expected h → ended < h }
    ensures reached { (m : Bool) (root : ℕ)
        → IsItemEnded m text.now root (take depth kinds.now) ended
        → IsReached m text.now root (take result.depth kinds.now) result.reached }
{
    let mut end = ended;
    let mut depth = depth;
    'containers: loop {
        match next_item(text, end, kinds[depth - 1]) {
            Ok(AfterItem::Item(next)) => return Extent::new(Reached::Expected(next), depth),
            Ok(AfterItem::End(close)) => end = close,
            Err(_) => return Extent::new(Reached::Ended(end), depth),
        }
        depth -= 1;
        if depth == 0 {
            return Extent::new(Reached::Closed(end), depth);
        }
    }
}

// Passes the item that is expected at `place`, and the ends of containers after it, or enters the
// container that is its value: how far the items of the open containers fit then.
#[inline]
#[tactic(auto, using(crate::proofs::SkippingLemmas::steps))]
fn advance(text: &[u8], opened: &mut Vec<Kind>, place: usize, lossy: bool) -> Result<Reached, Fault>
    requires within { place ≤ length text.now }
    requires some { 0 < length opened.old.items }
    ensures further { IfOk result (λ reached. (h : ℕ) → reached ≡ Reached.Expected h → place < h) }
    ensures within { IfOk result (λ reached. place_of reached ≤ length text.now) }
    ensures some { IfOk result (IsOngoing (length opened.new.items)) }
    ensures ok { IfOk result (λ reached. (root : ℕ)
        → IsReached lossy text.now root opened.old.items (Reached.Expected place)
        → IsReached lossy text.now root opened.new.items reached) }
    ensures err { IfErr result (IsStopFor (λ s. (root : ℕ)
        → IsReached lossy text.now root opened.old.items (Reached.Expected place)
        → IsFault lossy text.now root s)) }
{
    let value = item_value(text, place, opened[opened.len() - 1], lossy)?;
    match begin(text, value, lossy)? {
        ValueStart::Complete(skipped) => {
            let extent = leave(text, opened, opened.len(), skipped.end);
            opened.truncate(extent.depth);
            Ok(extent.reached)
        }
        ValueStart::Inside(inner, first) => {
            opened.push(inner)?;
            Ok(Reached::Expected(first))
        }
    }
}

// The end of the outermost container that is open, where an item of the innermost is expected at
// `first`, item by item.
fn close_slowly(
    text: &[u8],
    opened: &mut Vec<Kind>,
    first: usize,
    lossy: bool,
) -> Result<usize, Fault>
    requires within { first ≤ length text.now }
    requires some { 0 < length opened.old.items }
    ensures within { IfOk result (λ end. end ≤ length text.now) }
    ensures ok { IfOk result (λ end. (root : ℕ)
        → IsReached lossy text.now root opened.old.items (Reached.Expected first)
        → IsValue lossy text.now root end) }
    ensures err { IfErr result (IsStopFor (λ s. (root : ℕ)
        → IsReached lossy text.now root opened.old.items (Reached.Expected first)
        → IsFault lossy text.now root s)) }
{
    let mut place = first;
    'items: loop {
        match advance(text, opened, place, lossy)? {
            Reached::Expected(next) => place = next,
            Reached::Ended(end) => return Err(Fault::At(separator_stop(text, end, opened))),
            Reached::Closed(end) => return Ok(end),
        }
    }
}

// Why nothing fits after the value of an item of the innermost container that ended at a place.
pub(crate) fn separator_stop(text: &[u8], end: usize, opened: &[Kind]) -> Stop
    requires within { end ≤ length text.now }
    requires some { 0 < length opened.now }
    ensures { (m : Bool) (root : ℕ) → IsReached m text.now root opened.now (Reached.Ended end)
        → IsFault m text.now root result }
{
    let kind = opened[opened.len() - 1];
    stop_at(text, skip_space(text, end), kind.code_after_item())
}

// The end of the outermost container that is open, where an item of the innermost is expected at
// `first`.
//
// `opened` has the kinds of all containers that are open, the outermost first, and so it does while
// the loops run. It is all that grows.
pub(crate) fn close(
    text: &[u8],
    opened: &mut Vec<Kind>,
    first: usize,
    lossy: bool,
) -> Result<usize, Fault>
    requires within { first ≤ length text.now }
    requires some { 0 < length opened.old.items }
    ensures within { IfOk result (λ end. end ≤ length text.now) }
    ensures ok { IfOk result (λ end. (root : ℕ)
        → IsReached lossy text.now root opened.old.items (Reached.Expected first)
        → IsValue lossy text.now root end) }
    ensures err { IfErr result (IsStopFor (λ s. (root : ℕ)
        → IsReached lossy text.now root opened.old.items (Reached.Expected first)
        → IsFault lossy text.now root s)) }
{
    match close_quickly(text, opened, first, lossy) {
        Reached::Expected(place) => close_slowly(text, opened, place, lossy),
        Reached::Ended(end) => Err(Fault::At(separator_stop(text, end, opened))),
        Reached::Closed(end) => Ok(end),
    }
}
