//! The trait of what the input comes from.
ghost use Rattle.std.specs.Prelude.{◌≡◌, ◌<◌, ◌≤◌, ◌^◌, ℕ, List, length, take, IfOk, OnOk, OnErr};
ghost use Rattle.std.specs.declared.option.Option.{Option};
ghost use Rattle.std.specs.Io.KnownBytes.{IsAtEnd};
ghost use Rattle.sonic_io.specs.Outside.{Rose, Gave};

/// A call to the outside didn't do its work. Why isn't kept: each fault is answered alike.
#[derive(Clone, Copy, Debug, PartialEq, Eq)]
pub struct Failed;

/// Where the input comes from, a piece at a time.
///
/// What is left is known of a source over memory, and not of one over the system. A source counts
/// its faults, so that whoever reports a fault can show that there was one. The count is a number
/// of 64 bits: each failed call raises it by one, up to the greatest number, where it stays, and no
/// other call changes it. So a failed call leaves a greater count than it found, unless that stands
/// at its last value (`fault_shows`), and a source whose count is the constant 0 is one that never
/// fails. Each maker says that it begins at 0.
pub trait Source {
    // The bytes that it still has to give, where that is known.
    ghost left: { Self → Option (List ℕ) };

    // How many of its calls failed, up to the greatest number of 64 bits.
    ghost faults: { Self → ℕ };

    /// Copies the next bytes to the start of `room`, and answers how many they are.
    ///
    /// Fewer bytes than `room` has places don't mean the end: only 0 does, and only where `room`
    /// isn't empty. After a fault what is left is as before, so that the call may be made again.
    /// Of `[7]` and a room of two bytes a source may answer 2 and then 1, and 0 from then on.
    fn read(&mut self, room: &mut [u8]) -> Result<usize, Failed>
        ensures bound { IfOk result (λ count. count ≤ length room.new) }
        ensures given { IfOk result (λ count.
            Gave (left self.old) (left self.new) (take count room.new)) }
        ensures end { IfOk result (λ count.
            count ≡ 0 → 0 < length room.new → IsAtEnd (left self.new)) }
        ensures kept { OnErr result (left self.new ≡ left self.old) }
        ensures small { faults self.new < 2 ^ 64 }
        ensures calm { OnOk result (faults self.new ≡ faults self.old) }
        ensures cause { OnErr result (Rose (faults self.old) (faults self.new)) };
}
