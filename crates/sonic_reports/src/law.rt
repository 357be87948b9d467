//! The laws of the reports.
ghost use Rattle.std.specs.Prelude.{ℕ, List};
ghost use Rattle.sonic_reports.specs.Commands.Edits.{IsEditReport};
ghost use Rattle.sonic_reports.specs.Commands.Patches.{IsPatchReport};
ghost use Rattle.sonic_reports.specs.Commands.Texts.{IsMinReport, IsIndentReport};
ghost use Rattle.sonic_reports.specs.Laws.{HasOneReport, WritesEdited, WritesPatched, WritesTheSame};
ghost use Rattle.sonic_reports.specs.declared.status.Status.{Status};

/// A law of the reports, for all words and every input: there is a report, and there is no other.
pub fn input_has_one_report()
    ensures { (words : List (List ℕ)) (input : List ℕ) → HasOneReport words input }
{}

/// A law of the reports by `edit` with the status 0: each is a valid document and a line feed, and the
/// document means what the edits of the head make of the tree that the rest means.
pub fn edit_writes_the_edited_tree()
    ensures { (input text : List ℕ) → IsEditReport input text Status.Done → WritesEdited input text }
{}

/// A law of the reports by `patch` with the status 0: each is a valid document and a line feed, and the
/// document means what the operations of the first line make of the tree that the rest means.
pub fn patch_writes_the_patched_tree()
    ensures { (input text : List ℕ) → IsPatchReport input text Status.Done → WritesPatched input text }
{}

/// A law of the reports by `min` and `indent` with the status 0: each is a valid document, which means the
/// tree that the input means, and a line feed.
pub fn min_and_indent_write_the_same_tree()
    ensures min { (input text : List ℕ) → IsMinReport input text Status.Done → WritesTheSame input text }
    ensures indent { (width : ℕ) (input text : List ℕ) → IsIndentReport width input text Status.Done
        → WritesTheSame input text }
{}
