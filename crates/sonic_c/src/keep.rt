// Keeps the paths that lines say.
ghost use Rattle.std.specs.Prelude.{◌≡◌, ◌<◌, None, IfSome};
ghost use Rattle.sonic_c.specs.Kept.{no_list, rule_number};
ghost use Rattle.sonic_c.specs.Lists.{IsPathsCall};
ghost use Rattle.sonic_c.specs.Internal.Lists.{KeepsPaths};

use crate::fault::Fault;
use crate::kept::Kept;
use crate::many::paths_of;
use crate::paths::Paths;
use crate::status::{BAD_RULE, NO_MEMORY, OK};
use sonic_pointer::{KeyRule, PointerTree};
use std::alloc::Global;

// The rule with a number.
fn rule_of(number: u32) -> Option<KeyRule>
    ensures some { IfSome result (λ rule. rule_number rule ≡ number) }
    ensures none { result ≡ None → 2 < number }
{
    match number {
        0 => Some(KeyRule::First),
        1 => Some(KeyRule::Last),
        2 => Some(KeyRule::Refuse),
        _ => None,
    }
}

/// Keeps the paths that lines say, in place of those that were kept, for walks under a rule for equal
/// keys: 0 for the first one, 1 for the last one, 2 for none, so that a second one is an error.
///
/// The lines are those of `jihluka_get_many`. Whatever is refused, what was kept before stays. A number of no
/// rule is told before a line that says no path.
#[unsafe(no_mangle)]
pub extern "C" fn jihluka_paths_new(
    alloc: Global,
    lines: &[u8],
    rule: u32,
    paths: &mut Paths,
    error: &mut Fault,
) -> u32
    ensures { IsPathsCall lines.now rule (record { paths = paths.old; error = error.old })
        (record { paths = paths.new; error = error.new }) result }
{
    let Some(rule) = rule_of(rule) else {
        return BAD_RULE;
    };
    match paths_of(alloc, lines, error) {
        Ok(tree) => keep_tree(alloc, tree, rule, paths),
        Err(status) => status,
    }
}

// Keeps the paths of a tree.
fn keep_tree(alloc: Global, tree: PointerTree, rule: KeyRule, paths: &mut Paths) -> u32
    ensures { KeepsPaths (record { rule = rule; paths = tree }) paths.old paths.new result }
{
    let Ok(kept) = Kept::new(alloc, tree, rule) else {
        return NO_MEMORY;
    };
    let Ok(kept) = Box::new(alloc, kept) else {
        return NO_MEMORY;
    };
    paths.keep(kept);
    OK
}

/// Gives the memory of paths back, and leaves none. What keeps no paths stays so.
#[unsafe(no_mangle)]
pub extern "C" fn jihluka_paths_free(alloc: Global, paths: &mut Paths)
    ensures held { paths.new.held ≡ 0 }
    ensures list { paths.new.list ≡ no_list }
    ensures count { paths.new.count ≡ 0 }
{
    *paths = Paths::none(alloc);
}
