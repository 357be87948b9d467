// Patches, made on a value.
ghost use Rattle.std.specs.Prelude.{◌≡◌, IfErr, OnOk, OnErr, map};
ghost use Rattle.sonic_owned.specs.Views.{form};
ghost use Rattle.sonic_patch.specs.Patches.{OperationsMake, IsPatchRefusal};
ghost use Rattle.sonic_patch.specs.Views.{operation_of, operations_of};

use crate::error::PatchError;
use crate::make::perform;
use crate::operation::Operation;
use crate::read::Patch;
use sonic_owned::OwnedLazyValue;
use std::alloc::Global;

// Makes operations in order. Where one isn't made, the value isn't of use.
fn make_all(
    alloc: Global,
    value: &mut OwnedLazyValue,
    operations: &[Operation],
) -> Result<(), PatchError>
    ensures made { OnOk result (OperationsMake (map operation_of operations.now) (form value.old) (form value.new)) }
    ensures refused { IfErr result (IsPatchRefusal (map operation_of operations.now) (form value.old)) }
{
    let mut op = 0;
    'operations: while op < operations.len() {
        match perform(alloc, value, &operations[op]) {
            Ok(()) => op += 1,
            Err(refusal) => return Err(refusal.error_of(op)),
        }
    }
    Ok(())
}

/// Makes the operations of a patch in order on a value (RFC 6902).
///
/// An `add` of a member that is there puts the value in its place, a token `-` adds after the last
/// element of an array, and of repeated keys the first is meant. What is moved or copied isn't opened
/// where it is put, and a `test` opens nothing. A `remove` of the whole leaves `null`.
///
/// The first operation that can't be made refuses the patch: `PatchError::IntoChild` for a `move` into
/// what is moved, `PatchError::Missing` where a pointer leads to nothing, or `PatchError::TestFailed`,
/// in this order. Else the error is `PatchError::NoMemory`. After an error the value is as it was.
///
/// Of `{"a":[1,2]}` the operations `[{"op":"add","path":"/a/1","value":9},
/// {"op":"move","from":"/a/0","path":"/b"}]` make `{"a":[9,2],"b":1}`.
pub fn apply(alloc: Global, target: &mut OwnedLazyValue, patch: &Patch) -> Result<(), PatchError>
    ensures ok { OnOk result (OperationsMake (operations_of patch.now) (form target.old) (form target.new)) }
    ensures err { IfErr result (IsPatchRefusal (operations_of patch.now) (form target.old)) }
    ensures same { OnErr result (target.new ≡ target.old) }
{
    let Ok(mut value) = target.clone(alloc) else {
        return Err(PatchError::NoMemory);
    };
    make_all(alloc, &mut value, patch.operations.as_slice())?;
    *target = value;
    Ok(())
}
