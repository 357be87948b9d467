// A counter of steps that takes no bytes at run time.
ghost use Rattle.std.specs.Prelude.{◌≡◌, ℕ, ◌+◌, ◌<◌};

use std::marker::Model;
use std::sync::ledger::{Blank, Book, Ledger, Share};

/// How many steps were taken, counted in a ledger, which takes no bytes at run time.
///
/// [`Tape::masks_at`](crate::Tape::masks_at) takes one step, and nothing else changes the count. A
/// call that is given a counter of any ledger can't make a second one of that ledger. A caller that
/// counts nothing makes the counter of a ledger of its own:
///
/// ```text
/// fn end_over<L: Ledger>(text: &[u8], start: usize, blank: Blank) -> usize {
///     container_end(&Tape::new(text), start, &mut Steps::<L>::new(blank))
/// }
///
/// let end = end_over::<Brand>(b"[1]", 0, Blank::new(1));
/// ```
#[derive(Drop)]
pub struct Steps<L: Ledger> {
    book: Book<L>,
    share: Share<L>,
}

impl<L: Ledger> Model for Steps<L> {
    ghost Value = { ℕ };

    ghost view = { λ steps. steps.book.total };

    ghost invariant = { λ steps. 0 < steps.share.parts };
}

impl<L: Ledger> Steps<L> {
    /// A counter of no step so far, of a ledger that has none yet.
    pub fn new(blank: Blank) -> Steps<L>
        requires name { blank.name ≡ L.name }
        requires parts { blank.parts ≡ L.parts }
        requires some { 0 < L.parts }
        ensures { result ≡ 0 }
    {
        let (book, share) = blank.open();
        Steps { book, share }
    }

    // Counts one more step.
    #[inline(always)]
    pub(crate) fn tick(&mut self)
        ensures { self.new ≡ self.old + 1 }
    {
        self.book.add(&mut self.share, 1);
    }
}
