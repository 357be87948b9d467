//! The trait of what the report is written to.
ghost use Rattle.std.specs.Prelude.{◌≡◌, ◌<◌, ◌≤◌, ◌^◌, ℕ, List, length, take, IfOk, OnOk, OnErr};
ghost use Rattle.std.specs.declared.option.Option.{Option};
ghost use Rattle.sonic_io.specs.Outside.{Rose, Took};

use crate::source::Failed;

/// Where the output goes, a piece at a time.
///
/// What is written is known of a sink over memory, and not of one over the system. As a source
/// does, it counts its faults up to the greatest number of 64 bits.
pub trait Sink {
    // The bytes that it has taken, where that is known.
    ghost written: { Self → Option (List ℕ) };

    // The bytes that it has sent on, where that is known.
    ghost sent: { Self → Option (List ℕ) };

    // How many of its calls failed, up to the greatest number of 64 bits.
    ghost faults: { Self → ℕ };

    /// Takes a prefix of `piece`, of one byte at least, and answers how many bytes it took.
    ///
    /// A write that takes nothing is a fault. After a fault nothing more is written than before. Of
    /// `[7]` a sink may take 2 bytes, and whoever writes passes `]` in the next call.
    fn write(&mut self, piece: &[u8]) -> Result<usize, Failed>
        requires { 0 < length piece.now }
        ensures bound { IfOk result (λ count. (0 < count) × (count ≤ length piece.now)) }
        ensures taken { IfOk result (λ count.
            Took (written self.old) (written self.new) (take count piece.now)) }
        ensures kept { OnErr result (written self.new ≡ written self.old) }
        ensures small { faults self.new < 2 ^ 64 }
        ensures calm { OnOk result (faults self.new ≡ faults self.old) }
        ensures cause { OnErr result (Rose (faults self.old) (faults self.new)) };

    /// Sends on what was taken and is still held back. To be called once, after the last write: nothing
    /// else says that what was taken was sent on.
    fn finish(&mut self) -> Result<(), Failed>
        ensures sent { OnOk result (sent self.new ≡ written self.new) }
        ensures kept { written self.new ≡ written self.old }
        ensures small { faults self.new < 2 ^ 64 }
        ensures calm { OnOk result (faults self.new ≡ faults self.old) }
        ensures cause { OnErr result (Rose (faults self.old) (faults self.new)) };
}
