// What no clause says: that a value which has collections gives them through an `Option`, a `Result`
// and a reference.
use crate::same::same;
use sonic_lazy::JsonContainerTrait;
use std::process::Abort;
use std::test::Fail;

// A value that says by numbers what it holds.
#[derive(Clone, Copy)]
struct Numbered {
    object: Option<u8>,
    array: Option<u16>,
}

impl JsonContainerTrait for Numbered {
    type ObjectType = u8;

    type ArrayType = u16;

    ghost object = { λ value. value.object };

    ghost array = { λ value. value.array };

    fn as_object(&self) -> Option<&u8> {
        self.object.as_ref()
    }

    fn as_array(&self) -> Option<&u16> {
        self.array.as_ref()
    }
}

const OBJECT: Numbered = Numbered {
    object: Some(7),
    array: None,
};

const ARRAY: Numbered = Numbered {
    object: None,
    array: Some(300),
};

const NEITHER: Numbered = Numbered {
    object: None,
    array: None,
};

/// Checks the collections that a value gives.
fn check<V: JsonContainerTrait<ObjectType = u8, ArrayType = u16>>(
    rt: &impl Abort,
    value: &V,
    wanted: Numbered,
) {
    same(rt, value.as_object().copied(), wanted.object);
    same(rt, value.as_array().copied(), wanted.array);
}

#[test]
fn gives_collections_through_wrappers(rt: HostRuntime) -> Result<(), Fail> {
    for &value in &[OBJECT, ARRAY, NEITHER] {
        check(&rt, &value, value);
        check(&rt, &&value, value);
        check(&rt, &Some(value), value);
        check(&rt, &Some(&value), value);
        check::<Result<Numbered, u8>>(&rt, &Ok(value), value);
    }
    Ok(())
}

#[test]
fn gives_nothing_where_there_is_no_value(rt: HostRuntime) -> Result<(), Fail> {
    check::<Option<Numbered>>(&rt, &None, NEITHER);
    check::<Result<Numbered, u8>>(&rt, &Err(1), NEITHER);
    Ok(())
}
