// Look-ups, what is lent to be changed, and what names an item.
use crate::same::same;
use sonic_error::ErrorCode;
use sonic_input::FastStr;
use sonic_pointer::PointerNode;
use sonic_value::{Index, Value};
use std::alloc::Global;
use std::process::Abort;
use std::test::Fail;

fn text(rt: &impl Abort, alloc: Global, text: &str) -> String {
    match String::from_str(alloc, text) {
        Ok(text) => text,
        Err(_) => panic!(rt; "no memory"),
    }
}

fn number(rt: &impl Abort, alloc: Global, digits: &str) -> Value {
    Value::Number(text(rt, alloc, digits))
}

// An array of two elements.
fn pair(rt: &impl Abort, alloc: Global, first: Value, second: Value) -> Value {
    let mut elements = Vec::new(alloc);
    assert!(rt; elements.push(first).is_ok());
    assert!(rt; elements.push(second).is_ok());
    Value::Array(elements)
}

// An object of one member.
fn object(rt: &impl Abort, alloc: Global, key: &str, value: Value) -> Value {
    let mut members = Vec::new(alloc);
    assert!(rt; members.push((text(rt, alloc, key), value)).is_ok());
    Value::Object(members)
}

// {"a":1,"b":[0,{"c":2}],"a":3}
fn sample(rt: &impl Abort, alloc: Global) -> Value {
    let inner = object(rt, alloc, "c", number(rt, alloc, "2"));
    let list = pair(rt, alloc, number(rt, alloc, "0"), inner);
    let mut members = Vec::new(alloc);
    assert!(rt;
        members
            .push((text(rt, alloc, "a"), number(rt, alloc, "1")))
            .is_ok()
    );
    assert!(rt; members.push((text(rt, alloc, "b"), list)).is_ok());
    assert!(rt;
        members
            .push((text(rt, alloc, "a"), number(rt, alloc, "3")))
            .is_ok()
    );
    Value::Object(members)
}

// The digits of a number.
fn digits(value: Option<&Value>) -> Option<&str> {
    match value {
        Some(Value::Number(text)) => Some(text.as_str()),
        _ => None,
    }
}

fn is_null(value: Option<&Value>) -> bool {
    matches!(value, Some(Value::Null))
}

#[test]
fn finds_the_first_of_equal_keys(rt: HostRuntime) -> Result<(), Fail> {
    let value = sample(&rt, rt.alloc());
    same(&rt, digits(value.get(PointerNode::Key("a"))), Some("1"));
    assert!(rt; value.get(PointerNode::Key("c")).is_none());
    assert!(rt; value.get(PointerNode::Index(0)).is_none());
    let path = [
        PointerNode::Key("b"),
        PointerNode::Index(1),
        PointerNode::Key("c"),
    ];
    same(&rt, digits(value.pointer(&path)), Some("2"));
    same(
        &rt,
        digits(value.pointer(&[PointerNode::Key("b"), PointerNode::Index(0)])),
        Some("0"),
    );
    assert!(rt;
        value
            .pointer(&[PointerNode::Key("b"), PointerNode::Index(2)])
            .is_none()
    );
    assert!(rt;
        value
            .pointer(&[PointerNode::Key("a"), PointerNode::Index(0)])
            .is_none()
    );
    assert!(rt; value.pointer(&[]).is_some());
    Ok(())
}

#[test]
fn changes_what_a_path_leads_to(rt: HostRuntime) -> Result<(), Fail> {
    let alloc = rt.alloc();
    let mut value = sample(&rt, alloc);
    let path = [
        PointerNode::Key("b"),
        PointerNode::Index(1),
        PointerNode::Key("c"),
    ];
    match value.pointer_mut(&path) {
        Some(part) => *part = Value::Null,
        None => panic!(rt; "there is a part"),
    }
    assert!(rt; is_null(value.pointer(&path)));
    same(&rt, digits(value.get(PointerNode::Key("a"))), Some("1"));
    match value.get_mut(PointerNode::Key("a")) {
        Some(item) => *item = number(&rt, alloc, "4"),
        None => panic!(rt; "there is an item"),
    }
    same(&rt, digits(value.get(PointerNode::Key("a"))), Some("4"));
    assert!(rt; value.get_mut(PointerNode::Index(0)).is_none());
    assert!(rt; value.pointer_mut(&[PointerNode::Key("c")]).is_none());
    match &value {
        Value::Object(members) => {
            assert_eq!(rt; members.len(), 3);
            same(&rt, digits(Some(&members[2].1)), Some("3"));
        }
        _ => panic!(rt; "it is an object"),
    }
    match value.pointer_mut(&[]) {
        Some(whole) => *whole = Value::Bool(true),
        None => panic!(rt; "it is there"),
    }
    assert!(rt; matches!(&value, Value::Bool(true)));
    Ok(())
}

#[test]
fn lends_the_lists(rt: HostRuntime) -> Result<(), Fail> {
    let alloc = rt.alloc();
    let mut value = pair(&rt, alloc, Value::Null, Value::Bool(false));
    match value.as_array_mut() {
        Some(elements) => assert!(rt; elements.push(number(&rt, alloc, "7")).is_ok()),
        None => panic!(rt; "it is an array"),
    }
    same(&rt, digits(value.get(PointerNode::Index(2))), Some("7"));
    assert!(rt; value.as_object_mut().is_none());
    let mut value = object(&rt, alloc, "k", Value::Null);
    match value.as_object_mut() {
        Some(members) => members.clear(),
        None => panic!(rt; "it is an object"),
    }
    assert!(rt; value.get(PointerNode::Key("k")).is_none());
    assert!(rt; value.as_array_mut().is_none());
    assert!(rt; Value::Null.as_array_mut().is_none());
    Ok(())
}

#[test]
fn follows_a_path_of_300_nodes(rt: HostRuntime) -> Result<(), Fail> {
    let alloc = rt.alloc();
    let mut value = Value::Bool(true);
    let mut path = Vec::new(alloc);
    for _ in 0..300 {
        let mut elements = Vec::new(alloc);
        assert!(rt; elements.push(value).is_ok());
        value = Value::Array(elements);
        assert!(rt; path.push(PointerNode::Index(0)).is_ok());
    }
    assert!(rt; matches!(value.pointer(&path), Some(Value::Bool(true))));
    match value.pointer_mut(&path) {
        Some(part) => *part = Value::Null,
        None => panic!(rt; "there is a part"),
    }
    assert!(rt; is_null(value.pointer(&path)));
    assert!(rt; path.push(PointerNode::Index(0)).is_ok());
    assert!(rt; value.pointer(&path).is_none());
    assert!(rt; value.pointer_mut(&path).is_none());
    Ok(())
}

// The item that each kind of index names in `{"k":5}`, or in `[6,7]`.
fn check_index<I: Index>(rt: &impl Abort, alloc: Global, index: &I, wanted: &str) {
    let mut value = match index.as_index() {
        Some(_) => pair(rt, alloc, number(rt, alloc, "6"), number(rt, alloc, "7")),
        None => object(rt, alloc, "k", number(rt, alloc, "5")),
    };
    same(rt, digits(index.value_index_into(&value)), Some(wanted));
    match index.index_into_mut(&mut value) {
        Some(item) => *item = Value::Null,
        None => panic!(rt; "there is an item"),
    }
    assert!(rt; is_null(index.value_index_into(&value)));
    match index.index_or_insert(alloc, &mut value) {
        Ok(item) => *item = Value::Bool(true),
        Err(error) => panic!(rt; "{error}"),
    }
    assert!(rt; matches!(index.value_index_into(&value), Some(Value::Bool(true))));
}

#[test]
fn names_items_in_each_way(rt: HostRuntime) -> Result<(), Fail> {
    let alloc = rt.alloc();
    check_index(&rt, alloc, &1usize, "7");
    check_index(&rt, alloc, &"k", "5");
    check_index(&rt, alloc, &&"k", "5");
    let owned = text(&rt, alloc, "k");
    check_index(&rt, alloc, &&owned, "5");
    match FastStr::new(alloc, "k") {
        Ok(shared) => check_index(&rt, alloc, &&shared, "5"),
        Err(error) => panic!(rt; "{error}"),
    }
    check_index(&rt, alloc, &PointerNode::Key("k"), "5");
    check_index(&rt, alloc, &PointerNode::Index(0), "6");
    same(&rt, "k".as_key(), Some("k"));
    same(&rt, "k".as_index(), None);
    same(&rt, 1usize.as_key(), None);
    Ok(())
}

// Whether the value is `{"k":null}`.
fn is_one_null(value: &Value) -> bool {
    match value {
        Value::Object(members) => members.len() == 1 && is_null(value.get(PointerNode::Key("k"))),
        _ => false,
    }
}

#[test]
fn appends_a_member_once(rt: HostRuntime) -> Result<(), Fail> {
    let alloc = rt.alloc();
    let mut value = Value::Null;
    match "k".index_or_insert(alloc, &mut value) {
        Ok(item) => assert!(rt; matches!(item, Value::Null)),
        Err(error) => panic!(rt; "{error}"),
    }
    assert!(rt; is_one_null(&value));
    match "k".index_or_insert(alloc, &mut value) {
        Ok(item) => assert!(rt; matches!(item, Value::Null)),
        Err(error) => panic!(rt; "{error}"),
    }
    assert!(rt; is_one_null(&value));
    match "l".index_or_insert(alloc, &mut value) {
        Ok(item) => *item = Value::Bool(false),
        Err(error) => panic!(rt; "{error}"),
    }
    assert!(rt; is_null(value.get(PointerNode::Key("k"))));
    match &value {
        Value::Object(members) => same(&rt, members.len(), 2),
        _ => panic!(rt; "it is an object"),
    }
    Ok(())
}

#[test]
fn refuses_other_kinds(rt: HostRuntime) -> Result<(), Fail> {
    let alloc = rt.alloc();
    let mut list = Vec::new(alloc);
    assert!(rt; list.push(number(&rt, alloc, "1")).is_ok());
    let mut value = Value::Array(list);
    match 1usize.index_or_insert(alloc, &mut value) {
        Ok(_) => panic!(rt; "there is one element"),
        Err(error) => same(&rt, error.code(), ErrorCode::GetIndexOutOfArray),
    }
    match &value {
        Value::Array(elements) => same(&rt, elements.len(), 1),
        _ => panic!(rt; "it is an array"),
    }
    same(&rt, digits(value.get(PointerNode::Index(0))), Some("1"));
    match "k".index_or_insert(alloc, &mut value) {
        Ok(_) => panic!(rt; "it is an array"),
        Err(error) => same(&rt, error.code(), ErrorCode::UnexpectedVisitType),
    }
    let mut value = Value::Bool(true);
    match "k".index_or_insert(alloc, &mut value) {
        Ok(_) => panic!(rt; "it is no object"),
        Err(error) => same(&rt, error.code(), ErrorCode::UnexpectedVisitType),
    }
    assert!(rt; matches!(&value, Value::Bool(true)));
    match 0usize.index_or_insert(alloc, &mut Value::Null) {
        Ok(_) => panic!(rt; "null has no elements"),
        Err(error) => same(&rt, error.code(), ErrorCode::UnexpectedVisitType),
    }
    Ok(())
}
