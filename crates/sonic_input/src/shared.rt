// A part of shared bytes.
ghost use Rattle.std.specs.Prelude.{◌≤◌, length};

use bytes::Bytes;
use std::alloc::AllocError;

/// The part of some shared bytes from one place to another.
///
/// It borrows the bytes, and takes no memory: only text that is made of it owns them too.
#[derive(Clone, Copy, Debug)]
pub struct SharedSlice<'de> {
    whole: &'de Bytes,
    start: usize,
    end: usize,
    ghost order: { start ≤ end },
    ghost inside: { end ≤ length whole.now },
}

impl<'de> SharedSlice<'de> {
    ghost use Rattle.std.specs.Prelude.{◌≡◌, ◌≤◌, length, slice_range, IfOk};
    ghost use Rattle.sonic_input.specs.Slices.{shared_bytes};

    /// The bytes of `whole` from the one with index `start` to the one before `end`.
    ///
    /// Over `[1,2]` the part from 1 to 2 is `1`.
    pub fn new(whole: &'de Bytes, start: usize, end: usize) -> SharedSlice<'de>
        requires order { start ≤ end }
        requires inside { end ≤ length whole.now }
        ensures { shared_bytes result ≡ slice_range whole.now start end }
    {
        SharedSlice { whole, start, end }
    }

    pub(crate) fn bytes(&self) -> &'de [u8]
        ensures { result.now ≡ shared_bytes self.now }
    {
        let whole: &'de Bytes = self.whole;
        &whole.as_slice()[self.start..self.end]
    }

    pub(crate) fn part(&self, start: usize, end: usize) -> SharedSlice<'de>
        requires order { start ≤ end }
        requires inside { end ≤ length (shared_bytes self.now) }
        ensures { shared_bytes result ≡ slice_range (shared_bytes self.now) start end }
    {
        let len = self.end - self.start;
        prove!(end <= len);
        SharedSlice {
            whole: self.whole,
            start: self.start + start,
            end: self.start + end,
        }
    }

    // Another owner of these bytes, which copies none.
    pub(crate) fn share(&self) -> Result<Bytes, AllocError>
        ensures { IfOk result (λ bytes. bytes ≡ shared_bytes self.now) }
    {
        let whole: &'de Bytes = self.whole;
        whole.slice(self.start..self.end)
    }
}
