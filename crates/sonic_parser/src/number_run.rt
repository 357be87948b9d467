// Runs of numbers in an array, passed by blocks of 64 bytes.
//
// No fault is found here: where no series is, or where one ends, the loop over items goes on.
ghost use Rattle.std.specs.Prelude.{◌≤◌, length};
ghost use Rattle.sonic_parser.specs.Internal.Skipping.{AreItemsPassed};

use sonic_blocks::internal::whole_elements;
use sonic_text::{Kind, byte_at, skip_space};

// Fewer bytes of a block aren't passed: the loop over items is as fast.
const FEWEST: usize = 16;

// So many bytes after a place where no series began, one is looked for again at the latest.
const LONGEST_WAIT: usize = 4_096;

// Where a series is looked for next, and where the last one ended.
//
// Where none begins, the next look waits for a quarter of the bytes that came since the last one, within
// limits: so where they come often few are missed, and where none comes few looks are paid for.
#[derive(Clone, Copy)]
pub(crate) struct NumberRun {
    next: usize,
    last: usize,
}

impl NumberRun {
    // None was looked for yet, and the first may begin at a place.
    #[inline(always)]
    pub(crate) fn new(place: usize) -> NumberRun {
        NumberRun {
            next: place,
            last: place,
        }
    }

    // Where an item of a container of this kind is expected after the series that begins at a place where
    // one is, if it is found; else that place.
    #[inline(always)]
    pub(crate) fn pass(&mut self, text: &[u8], place: usize, kind: Kind) -> usize
        requires { place ≤ length text.now }
        ensures later { place ≤ result }
        ensures within { result ≤ length text.now }
        ensures items { AreItemsPassed kind text.now place result }
    {
        if self.next <= place
            && matches!(kind, Kind::Array)
            && matches!(byte_at(text, place), b'-' | b'0'..=b'9')
        {
            self.search(text, place)
        } else {
            place
        }
    }

    // Where an element is expected after the series that begins at a place, or that place.
    #[inline(never)]
    fn search(&mut self, text: &[u8], place: usize) -> usize
        requires { place ≤ length text.now }
        ensures later { place ≤ result }
        ensures within { result ≤ length text.now }
        ensures items { AreItemsPassed Kind.Array text.now place result }
    {
        let end = series_end(text, place);
        if place < end {
            self.last = end;
        } else {
            let wait = (place.saturating_sub(self.last) / 4).min(LONGEST_WAIT);
            self.next = place.saturating_add(wait);
        }
        end
    }
}

// Where an element is expected after those that whole blocks show from a place on.
#[inline(always)]
fn series_end(text: &[u8], first: usize) -> usize
    requires { first ≤ length text.now }
    ensures later { first ≤ result }
    ensures within { result ≤ length text.now }
    ensures items { AreItemsPassed Kind.Array text.now first result }
{
    let mut place = first;
    while let Some(block) = text[place..].first_chunk::<64>() {
        let passed = whole_elements(block);
        if passed < FEWEST {
            return place;
        }
        place = skip_space(text, place + passed);
    }
    place
}
