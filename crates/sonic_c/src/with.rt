// Where paths that are kept lead.
ghost use Rattle.std.specs.Prelude.{◌≡◌, ◌≢◌, ℕ, List, []};
ghost use Rattle.sonic_pointer.specs.declared.rule.KeyRule.TheVariants.{First};
ghost use Rattle.sonic_text.specs.Documents.{StartsWithUtf8Value};
ghost use Rattle.sonic_c.specs.Each.{IsEachListCall};
ghost use Rattle.sonic_c.specs.Kept.{no_list};
ghost use Rattle.sonic_c.specs.Lists.{IsListCall};
ghost use Rattle.sonic_c.specs.Statuses.{status_ok, status_no_memory};

use crate::fault::Fault;
use crate::outcome::Outcome;
use crate::paths::Paths;
use crate::span::Span;
use crate::status::{OK, WRONG_COUNT};
use std::alloc::Global;

/// Where paths that are kept lead in the text, in their order: what `jihluka_get_many` tells of their
/// lines, but that their rule says which of equal keys counts.
///
/// Under the rule that the first one counts, a call takes memory only where it needs more than each one
/// before. Without paths it is `OK` of no spans, and the text isn't read.
#[unsafe(no_mangle)]
pub extern "C" fn jihluka_get_many_with(
    alloc: Global,
    json: &[u8],
    paths: &mut Paths,
    spans: &mut [Span],
    error: &mut Fault,
) -> u32
    ensures call { IsListCall json.now paths.old.list
        (record { spans = spans.old; error = error.old })
        (record { spans = spans.new; error = error.new }) result }
    ensures no_paths { paths.old.list.paths ≡ [] → spans.old ≡ [] → result ≡ status_ok }
    ensures list { paths.new.list ≡ paths.old.list }
    ensures count { paths.new.count ≡ paths.old.count }
{
    let Some(mut kept) = paths.take(alloc) else {
        return follow_none(spans, error);
    };
    let status = kept.follow(alloc, json, spans, error);
    paths.keep(kept);
    status
}

/// The same in a text that is known to begin with a value in UTF-8, as one that `jihluka_validate` took
/// does, without a second look at what it passes. Under the rule that the first of equal keys counts it
/// takes no memory.
#[unsafe(no_mangle)]
pub extern "C" fn jihluka_get_many_with_unchecked(
    alloc: Global,
    json: &[u8],
    paths: &mut Paths,
    spans: &mut [Span],
    error: &mut Fault,
) -> u32
    requires { StartsWithUtf8Value json.now }
    ensures call { IsListCall json.now paths.old.list
        (record { spans = spans.old; error = error.old })
        (record { spans = spans.new; error = error.new }) result }
    ensures memory { paths.old.list.rule ≡ First → result ≢ status_no_memory }
    ensures no_paths { paths.old.list.paths ≡ [] → spans.old ≡ [] → result ≡ status_ok }
    ensures list { paths.new.list ≡ paths.old.list }
    ensures count { paths.new.count ≡ paths.old.count }
{
    let Some(mut kept) = paths.take(alloc) else {
        return follow_none(spans, error);
    };
    let status = kept.follow_unchecked(alloc, json, spans, error);
    paths.keep(kept);
    status
}

/// Where each of the paths that are kept leads in the text, in their order, whatever the others lead to:
/// what `jihluka_get_each` tells of their lines, but that their rule says which of equal keys counts.
///
/// Under the rule that the first one counts, a call takes memory only where it needs more than each one
/// before. Without paths it is `OK` of no outcomes, and the text isn't read.
#[unsafe(no_mangle)]
pub extern "C" fn jihluka_get_each_with(
    alloc: Global,
    json: &[u8],
    paths: &mut Paths,
    outcomes: &mut [Outcome],
    error: &mut Fault,
) -> u32
    ensures call { IsEachListCall json.now paths.old.list
        (record { outcomes = outcomes.old; error = error.old })
        (record { outcomes = outcomes.new; error = error.new }) result }
    ensures no_paths { paths.old.list.paths ≡ [] → outcomes.old ≡ [] → result ≡ status_ok }
    ensures list { paths.new.list ≡ paths.old.list }
    ensures count { paths.new.count ≡ paths.old.count }
{
    let Some(mut kept) = paths.take(alloc) else {
        return tell_none(outcomes, error);
    };
    let status = kept.follow_each(alloc, json, outcomes, error);
    paths.keep(kept);
    status
}

/// The same in a text that is known to begin with a value in UTF-8, as one that `jihluka_validate` took
/// does, without a second look at what it passes. Under the rule that the first of equal keys counts it
/// takes no memory.
#[unsafe(no_mangle)]
pub extern "C" fn jihluka_get_each_with_unchecked(
    alloc: Global,
    json: &[u8],
    paths: &mut Paths,
    outcomes: &mut [Outcome],
    error: &mut Fault,
) -> u32
    requires { StartsWithUtf8Value json.now }
    ensures call { IsEachListCall json.now paths.old.list
        (record { outcomes = outcomes.old; error = error.old })
        (record { outcomes = outcomes.new; error = error.new }) result }
    ensures memory { paths.old.list.rule ≡ First → result ≢ status_no_memory }
    ensures no_paths { paths.old.list.paths ≡ [] → outcomes.old ≡ [] → result ≡ status_ok }
    ensures list { paths.new.list ≡ paths.old.list }
    ensures count { paths.new.count ≡ paths.old.count }
{
    let Some(mut kept) = paths.take(alloc) else {
        return tell_none(outcomes, error);
    };
    let status = kept.follow_each_unchecked(alloc, json, outcomes, error);
    paths.keep(kept);
    status
}

// Tells no path where it leads.
fn tell_none(outcomes: &mut [Outcome], error: &mut Fault) -> u32
    ensures call { (text : List ℕ) → IsEachListCall text no_list
        (record { outcomes = outcomes.old; error = error.old })
        (record { outcomes = outcomes.new; error = error.new }) result }
    ensures memory { result ≢ status_no_memory }
    ensures no_paths { outcomes.old ≡ [] → result ≡ status_ok }
{
    if outcomes.is_empty() {
        return OK;
    }
    *error = Fault::at_line(0);
    WRONG_COUNT
}

// Tells that no path leads anywhere.
fn follow_none(spans: &mut [Span], error: &mut Fault) -> u32
    ensures call { (text : List ℕ) → IsListCall text no_list
        (record { spans = spans.old; error = error.old })
        (record { spans = spans.new; error = error.new }) result }
    ensures memory { result ≢ status_no_memory }
    ensures no_paths { spans.old ≡ [] → result ≡ status_ok }
{
    if spans.is_empty() {
        return OK;
    }
    *error = Fault::at_line(0);
    WRONG_COUNT
}
