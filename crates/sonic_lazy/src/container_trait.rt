// What a container holds, as the collections of its kind of value.
ghost use Rattle.std.specs.Prelude.{◌≡◌, Option};
ghost use Rattle.std.specs.Option.{option_copied};

/// The calls that give a container as a collection: an object (RFC 8259, section 4) or an array
/// (section 5).
///
/// Which collections these are is the value's own choice. A lazy value has none, as it isn't read.
/// An `Option` and a `Result` hold what the value in them holds, and `None` and `Err` count as
/// `null`, which is no container.
pub trait JsonContainerTrait {
    /// The members of an object.
    type ObjectType;

    /// The elements of an array.
    type ArrayType;

    // The members of the value, if it is an object.
    ghost object: { Self → Option Self.ObjectType };

    // The elements of the value, if it is an array.
    ghost array: { Self → Option Self.ArrayType };

    /// The members of the value where it is an object, and else `None`.
    ///
    /// Of `{}` they are `Some` of no member, and of `[]` and `None` it is `None`.
    fn as_object(&self) -> Option<&Self::ObjectType>
        ensures { option_copied result ≡ object self.now };

    /// The elements of the value where it is an array, and else `None`.
    ///
    /// Of `[]` they are `Some` of no element, and of `{}` and `None` it is `None`.
    fn as_array(&self) -> Option<&Self::ArrayType>
        ensures { option_copied result ≡ array self.now };
}

/// What the value holds, and nothing where there is none.
impl<V: JsonContainerTrait> JsonContainerTrait for Option<V> {
    ghost use Rattle.std.specs.Prelude.{option_and_then};

    type ObjectType = V::ObjectType;

    type ArrayType = V::ArrayType;

    ghost object = { λ value. option_and_then V.object value };

    ghost array = { λ value. option_and_then V.array value };

    fn as_object(&self) -> Option<&Self::ObjectType> {
        self.as_ref()?.as_object()
    }

    fn as_array(&self) -> Option<&Self::ArrayType> {
        self.as_ref()?.as_array()
    }
}

/// What the value holds, and nothing where there is an error instead.
impl<V: JsonContainerTrait, E> JsonContainerTrait for Result<V, E> {
    ghost use Rattle.std.specs.Prelude.{option_and_then};
    ghost use Rattle.std.specs.Result.{result_ok};

    type ObjectType = V::ObjectType;

    type ArrayType = V::ArrayType;

    ghost object = { λ value. option_and_then V.object (result_ok value) };

    ghost array = { λ value. option_and_then V.array (result_ok value) };

    fn as_object(&self) -> Option<&Self::ObjectType> {
        self.as_ref().ok()?.as_object()
    }

    fn as_array(&self) -> Option<&Self::ArrayType> {
        self.as_ref().ok()?.as_array()
    }
}

/// What the value holds that it points to.
impl<V: JsonContainerTrait> JsonContainerTrait for &V {
    type ObjectType = V::ObjectType;

    type ArrayType = V::ArrayType;

    ghost object = { λ value. V.object value.now };

    ghost array = { λ value. V.array value.now };

    fn as_object(&self) -> Option<&Self::ObjectType> {
        let value: &V = self;
        value.as_object()
    }

    fn as_array(&self) -> Option<&Self::ArrayType> {
        let value: &V = self;
        value.as_array()
    }
}
