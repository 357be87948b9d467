// Lazy values: their types, and paths inside them.
use sonic_error::JsonType;
use sonic_lazy::{JsonValueTrait, LazyValue, get};
use sonic_pointer::{PointerNode, pointer};
use std::alloc::Global;
use std::io;

const ORDER: &str =
    r#"{"id": 18446744073709551615, "paid": true, "items": [{"sku": "a-1", "count": -2}], "note": null}"#;

/// What kind of value is there, and its text.
fn describe(rt: &impl Print, value: &LazyValue<'_>) -> io::Result<()> {
    let kind = match value.get_type() {
        JsonType::Null => "null",
        JsonType::Boolean => "boolean",
        JsonType::Number => "number",
        JsonType::String => "string",
        JsonType::Object => "object",
        JsonType::Array => "array",
    };
    println!(rt; "{kind} {value}")
}

/// What an order says of itself.
pub fn show(rt: &impl Print, alloc: Global) -> io::Result<()> {
    let order = match get(alloc, ORDER, &[]) {
        Ok(order) => order,
        Err(error) => return println!(rt; "{error}"),
    };
    for key in ["id", "paid", "items", "note"] {
        if let Some(value) = order.get(PointerNode::Key(key)) {
            describe(rt, &value)?;
        }
    }
    println!(rt; "{:?}", order.get(PointerNode::Key("id")).as_u64())?;
    println!(rt;
        "{:?}",
        order.pointer(&pointer!["items", 0, "count"]).as_i64()
    )?;
    println!(rt; "{:?}", order.pointer(&pointer!["items", 1]).as_i64())?;
    println!(rt; "{}", order.get(PointerNode::Key("paid")).is_true())
}
