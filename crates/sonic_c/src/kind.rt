// The type of a value.
ghost use Rattle.std.specs.Prelude.{◌≡◌, ℕ, List};
ghost use Rattle.sonic_error.specs.Kinds.{number_of};
ghost use Rattle.sonic_text.specs.Places.{after_space};
ghost use Rattle.sonic_text.specs.Trees.{Tree, Means, type_of_tree};
ghost use Rattle.sonic_c.specs.Statuses.{status_ok};
ghost use Rattle.sonic_c.specs.Values.{IsTypeCall};

use crate::begun::begun;
use crate::code::found_number;
use crate::fault::{Fault, tell_stop};
use crate::status::OK;

/// The type of the value that begins a text after white space: 0 for null, 1 for a boolean, 2 for a
/// number, 3 for a string, 4 for an object and 5 for an array.
///
/// The first byte of the value says it, and nothing after that is looked at. With which no value
/// begins is `DOCUMENT_ERROR`, as a text is that is empty or blank.
#[unsafe(no_mangle)]
pub extern "C" fn jihluka_type(json: &[u8], kind: &mut u32, error: &mut Fault) -> u32
    ensures call { IsTypeCall json.now (record { value = kind.old; error = error.old })
        (record { value = kind.new; error = error.new }) result }
    ensures means { (j : ℕ) (x : Tree) → Means json.now (after_space json.now 0) j x
        → (result ≡ status_ok) × (kind.new ≡ number_of (type_of_tree x)) }
{
    match begun(json) {
        Ok((_, found)) => {
            *kind = found_number(found);
            OK
        }
        Err(stop) => tell_stop(error, json, stop),
    }
}
