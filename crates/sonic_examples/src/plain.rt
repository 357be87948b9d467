// A service that reads its options whole.
ghost use Rattle.std.specs.Prelude.{false, IfOk, IfErr};
ghost use Rattle.sonic_value.specs.Schemas.{IsFilled, IsFillError};
ghost use Rattle.sonic_value.specs.Views.{tree};

use sonic_error::Error;
use sonic_pointer::pointer;
use sonic_value::{Value, get_by_schema};
use std::alloc::Global;
use std::io;

const DEFAULTS: &str = r#"{"limit": 20, "order": {"by": "name", "rising": true}}"#;

const REQUEST: &str = r#"{"order": {"by": "date"}, "debug": [1, 2, 3]}"#;

/// The options of a request: what it says takes the place of the defaults, and what these don't name
/// is passed.
///
/// Of the defaults `{"limit":20}` and the request `{"limit":5,"debug":1}` they are `{"limit":5}`.
pub fn options(alloc: Global, defaults: Value, request: &str) -> Result<Value, Error>
    ensures ok { IfOk result (λ made. IsFilled request.now (tree defaults) (tree made)) }
    ensures err { IfErr result (IsFillError request.now false (tree defaults)) }
{
    get_by_schema(alloc, request, defaults)
}

// The options without an order, as text.
fn unordered(alloc: Global, mut options: Value) -> Result<String, Error> {
    if let Some(order) = options.pointer_mut(&pointer!["order"]) {
        *order = Value::Null;
    }
    options.to_string(alloc)
}

// The options of the request over the defaults, and then without an order.
fn shown(alloc: Global) -> Result<(String, String), Error> {
    let defaults = Value::from_str(alloc, DEFAULTS)?;
    let options = options(alloc, defaults, REQUEST)?;
    let text = options.to_string(alloc)?;
    Ok((text, unordered(alloc, options)?))
}

/// The options of a request, and the same without an order.
pub fn show(rt: &impl Print, alloc: Global) -> io::Result<()> {
    match shown(alloc) {
        Ok((ordered, unordered)) => {
            println!(rt; "{}", ordered.as_str())?;
            println!(rt; "{}", unordered.as_str())
        }
        Err(error) => println!(rt; "{error}"),
    }
}
