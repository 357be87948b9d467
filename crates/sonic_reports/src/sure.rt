//! Runs that no fault stops.
ghost use Rattle.std.specs.Prelude.{◌≡◌, ◌⊎◌, ◌≤◌, ℕ, List, map, string_bytes};
ghost use Rattle.sonic_pointer.specs.declared.rule.KeyRule.{KeyRule};
ghost use Rattle.sonic_reports.specs.declared.commands.Command.TheVariants.{Get};
ghost use Rattle.sonic_reports.specs.Commands.{Asks, IsListed};
ghost use Rattle.sonic_reports.specs.Commands.Get.{IsAnswerableInput};
ghost use Rattle.sonic_reports.specs.Reports.{IsReport};

use crate::runs::run;
use crate::status::Status;
use sonic_io::{SureSink, SureSource};
use std::alloc::Global;

/// Runs over an input that is read by pieces of at most `piece` bytes, and a sink that takes
/// everything.
///
/// Only running out of memory keeps such a run from the status of its report. Words that ask for no
/// command end it with `BadUsage` in any case.
pub fn run_surely(alloc: Global, words: &[String], input: Vec<u8>, piece: usize) -> Status
    requires { 1 ≤ piece }
    ensures status { (text : List ℕ) (status : Status)
        → IsReport (map string_bytes words.now) input.items text status
        → (result ≡ status) ⊎ (result ≡ Status.NoMemory) }
    ensures complete { (rule : KeyRule) → Asks (map string_bytes words.now) (Get rule)
        → IsAnswerableInput rule input.items → (result ≡ Status.Done) ⊎ (result ≡ Status.NoMemory) }
    ensures unlisted { ¬ IsListed (map string_bytes words.now) → result ≡ Status.BadUsage }
{
    let mut source = SureSource::new(input, piece);
    run(alloc, words, &mut source, &mut SureSink::new())
}
