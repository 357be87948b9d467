// Levels that are made item by item.
use crate::same::same;
use sonic_input::FastStr;
use sonic_lazy::JsonValueTrait;
use sonic_owned::{LazyArray, LazyObject, OwnedLazyValue};
use std::process::Abort;
use std::test::Fail;

#[test]
fn appends_elements(rt: HostRuntime) -> Result<(), Fail> {
    let alloc = rt.alloc();
    let Ok(mut array) = LazyArray::with_capacity(alloc, 4) else {
        panic!(rt; "memory is ample");
    };
    assert!(rt; array.is_empty());
    same(&rt, array.len(), 0);
    for &truth in &[true, false] {
        assert!(rt; array.push(OwnedLazyValue::from(truth)).is_ok());
    }
    same(&rt, array.len(), 2);
    match (array.at(0), array.at(1), array.at(2)) {
        (Some(first), Some(second), None) => {
            same(&rt, first.as_bool(), Some(true));
            same(&rt, second.as_bool(), Some(false));
        }
        _ => panic!(rt; "two elements were pushed"),
    }
    match OwnedLazyValue::from(array).to_string(alloc) {
        Ok(text) => same(&rt, &text[..], "[true,false]"),
        Err(error) => panic!(rt; "{error}"),
    }
    Ok(())
}

#[test]
fn appends_members(rt: HostRuntime) -> Result<(), Fail> {
    let alloc = rt.alloc();
    let Ok(mut object) = LazyObject::with_capacity(alloc, 4) else {
        panic!(rt; "memory is ample");
    };
    assert!(rt; object.is_empty());
    for &(key, truth) in &[("a", true), ("b\n", false), ("a", false)] {
        let key = FastStr::new(alloc, key)?;
        assert!(rt; object.append_pair(key, OwnedLazyValue::from(truth)).is_ok());
    }
    same(&rt, object.len(), 3);
    same(&rt, object.first_of_key("a"), Some(0));
    same(&rt, object.first_of_key("b\n"), Some(1));
    same(&rt, object.first_of_key("b"), None);
    same(&rt, object.first_of_key(""), None);
    match (object.at(1), object.at(3)) {
        (Some((key, value)), None) => {
            same(&rt, key.as_str(), "b\n");
            same(&rt, value.as_bool(), Some(false));
        }
        _ => panic!(rt; "three members were appended"),
    }
    match OwnedLazyValue::from(object).to_string(alloc) {
        Ok(text) => same(&rt, &text[..], "{\"a\":true,\"b\\n\":false,\"a\":false}"),
        Err(error) => panic!(rt; "{error}"),
    }
    Ok(())
}
