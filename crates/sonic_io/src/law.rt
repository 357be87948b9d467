//! The law of the counts of faults.
ghost use Rattle.std.specs.Prelude.{◌≡◌, ◌⊎◌, ◌<◌, ◌-◌, ◌^◌, ℕ};
ghost use Rattle.sonic_io.specs.Outside.{Rose};

/// A law of the counts of faults: after a fault the count is greater, unless it stands at the
/// greatest number already, where it stays. So a count below that number shows each fault.
pub fn fault_shows()
    ensures { (before after : ℕ) → Rose before after
        → (before < after) ⊎ ((before ≡ 2 ^ 64 - 1) × (after ≡ before)) }
{}
