// Worked examples of entries: each by the grammar, over each kind of input.
use crate::same::same_at;
use bytes::Bytes;
use sonic_error::JsonType;
use sonic_index::{Entry, JsonIndex, Label};
use sonic_input::{FastStr, JsonInput};
use std::alloc::Global;
use std::process::Abort;
use std::test::Fail;

// Where a value begins and ends, the number of its parent, its type, and its label.
type Row = (usize, usize, usize, JsonType, Label);

// A document, and its values.
const EXAMPLES: [(&str, &[Row]); 11] = [
    (
        "{\"a\":[1,{}]}",
        &[
            (0, 12, 0, JsonType::Object, Label::Root),
            (5, 11, 0, JsonType::Array, Label::Key { start: 1, end: 4 }),
            (6, 7, 1, JsonType::Number, Label::At(0)),
            (8, 10, 1, JsonType::Object, Label::At(1)),
        ],
    ),
    ("7", &[(0, 1, 0, JsonType::Number, Label::Root)]),
    (
        " \t\n-1.5e+7 \r\n",
        &[(3, 10, 0, JsonType::Number, Label::Root)],
    ),
    ("null", &[(0, 4, 0, JsonType::Null, Label::Root)]),
    ("\"\\\\\\\"\"", &[(0, 6, 0, JsonType::String, Label::Root)]),
    (" [ ] ", &[(1, 4, 0, JsonType::Array, Label::Root)]),
    ("{\n}", &[(0, 3, 0, JsonType::Object, Label::Root)]),
    (
        "[[],[[]],{}]",
        &[
            (0, 12, 0, JsonType::Array, Label::Root),
            (1, 3, 0, JsonType::Array, Label::At(0)),
            (4, 8, 0, JsonType::Array, Label::At(1)),
            (5, 7, 2, JsonType::Array, Label::At(0)),
            (9, 11, 0, JsonType::Object, Label::At(2)),
        ],
    ),
    (
        "{\"\":{\"\":true},\"a\":null,\"a\":\"\",\"\\u0061\":[false]}",
        &[
            (0, 47, 0, JsonType::Object, Label::Root),
            (4, 13, 0, JsonType::Object, Label::Key { start: 1, end: 3 }),
            (8, 12, 1, JsonType::Boolean, Label::Key { start: 5, end: 7 }),
            (18, 22, 0, JsonType::Null, Label::Key { start: 14, end: 17 }),
            (
                27,
                29,
                0,
                JsonType::String,
                Label::Key { start: 23, end: 26 },
            ),
            (
                39,
                46,
                0,
                JsonType::Array,
                Label::Key { start: 30, end: 38 },
            ),
            (40, 45, 5, JsonType::Boolean, Label::At(0)),
        ],
    ),
    (
        " { \"\\\"\" : 1 , \"a b\" : [ \",\" , \"]\" ] , \"{\" : { } } ",
        &[
            (1, 49, 0, JsonType::Object, Label::Root),
            (10, 11, 0, JsonType::Number, Label::Key { start: 3, end: 7 }),
            (
                22,
                35,
                0,
                JsonType::Array,
                Label::Key { start: 14, end: 19 },
            ),
            (24, 27, 2, JsonType::String, Label::At(0)),
            (30, 33, 2, JsonType::String, Label::At(1)),
            (
                44,
                47,
                0,
                JsonType::Object,
                Label::Key { start: 38, end: 41 },
            ),
        ],
    ),
    (
        "[{\"a\":0,\"b\":[1,2]},{\"a\":3}]",
        &[
            (0, 27, 0, JsonType::Array, Label::Root),
            (1, 18, 0, JsonType::Object, Label::At(0)),
            (6, 7, 1, JsonType::Number, Label::Key { start: 2, end: 5 }),
            (12, 17, 1, JsonType::Array, Label::Key { start: 8, end: 11 }),
            (13, 14, 3, JsonType::Number, Label::At(0)),
            (15, 16, 3, JsonType::Number, Label::At(1)),
            (19, 26, 0, JsonType::Object, Label::At(1)),
            (
                24,
                25,
                6,
                JsonType::Number,
                Label::Key { start: 20, end: 23 },
            ),
        ],
    ),
];

// Checks that the index of an input has these entries, and no others.
fn check<'de, I: JsonInput<'de>>(rt: &impl Abort, alloc: Global, input: I, rows: &[Row]) {
    let Ok(index) = JsonIndex::build(alloc, input) else {
        panic!(rt; "no index where {rows:?} are");
    };
    same_at(rt, index.len(), rows.len(), rows);
    same_at(rt, index.entry(rows.len()), None, rows);
    for (number, &(start, end, parent, kind, label)) in rows.iter().enumerate() {
        let wanted = Entry {
            start,
            end,
            parent,
            kind,
            label,
        };
        same_at(rt, index.entry(number), Some(wanted), rows);
    }
}

#[test]
fn finds_the_values_of_each_kind_of_input(rt: HostRuntime) -> Result<(), Fail> {
    let alloc = rt.alloc();
    for &(text, rows) in &EXAMPLES {
        let owned = String::from_str(alloc, text)?;
        let shared = FastStr::new(alloc, text)?;
        let bytes = Bytes::copy_from_slice(alloc, text.as_bytes())?;
        check(&rt, alloc, text, rows);
        check(&rt, alloc, text.as_bytes(), rows);
        check(&rt, alloc, &owned, rows);
        check(&rt, alloc, &shared, rows);
        check(&rt, alloc, &bytes, rows);
    }
    Ok(())
}
