// One item of a container after the other.
ghost use Rattle.std.specs.Prelude.{◌≡◌, ◌↔◌, ◌<◌, ◌^◌, None, length, IfOk, IfErr, IfSome, IsErrOf, IsTrue, OnOk, IsFalse};
ghost use Rattle.sonic_text.specs.Places.{byte, after_space};
ghost use Rattle.sonic_text.specs.Values.{ItemHead};
ghost use Rattle.sonic_text.specs.Strings.{strict};
ghost use Rattle.sonic_text.specs.Faults.{IsKeyFault};
ghost use Rattle.sonic_parser.specs.Faults.{IsStopFor};
ghost use Rattle.sonic_lazy.specs.Internal.Items.{IsAfterItems, IsFound, IsFoundHead};
ghost use Rattle.sonic_find.specs.Cursors.{HasWhole, IsAtKey};
ghost use Rattle.sonic_lazy.specs.Items.{ItemsReach, AreClosed, BeginsNoItem, AreStopped, code_of_start, code_before_item};

use sonic_error::ErrorCode;
use sonic_find::internal::Cursor;
use sonic_parser::{Fault, ValueSpan};
use sonic_text::{Kind, Stop, byte_at};

// An item: the key of a member, and where its value was found.
#[derive(Clone, Copy)]
pub(crate) struct Found {
    pub(crate) key: Option<ValueSpan>,
    pub(crate) value: ValueSpan,
}

// Passes the item that comes after those that were given, if there is one.
pub(crate) fn find_item(
    cursor: &mut Cursor<'_>,
    kind: Kind,
    given: usize,
) -> Result<Option<Found>, Fault>
    requires after { IsAfterItems cursor.old.text kind given cursor.old.place }
    requires whole { IsFalse cursor.old.checks → HasWhole cursor.old.text (after_space cursor.old.text 0) }
    ensures found { IfOk result (λ found. IfSome found (IsFound cursor.old.text kind given)) }
    ensures place { IfOk result (λ found. IfSome found (λ x. cursor.new.place ≡ x.value.end)) }
    ensures fits { IfOk result (λ found. IfSome found (λ x. x.value.end < 2 ^ 64)) }
    ensures closed { IfOk result (λ found. found ≡ None → AreClosed cursor.old.text kind given) }
    ensures moved { cursor.new ≡ record cursor.old { place = cursor.new.place } }
    ensures err { IfErr result (IsStopFor (AreStopped cursor.old.text kind given)) }
    ensures memory { IsErrOf result Fault.OutOfMemory → IsTrue cursor.old.checks }
{
    if !go_on(cursor, kind, given)? {
        return Ok(None);
    }
    if begins_none(cursor, kind, given) {
        let (place, code) = (cursor.place(), code_before_item(kind, given));
        return Err(Fault::At(Stop { place, code }));
    }
    let key = pass_head(cursor, kind)?;
    let value = cursor.skip()?;
    Ok(Some(Found { key, value }))
}

// Goes on after the items that were given: whether another one is expected.
fn go_on(cursor: &mut Cursor<'_>, kind: Kind, given: usize) -> Result<bool, Stop>
    requires after { IsAfterItems cursor.old.text kind given cursor.old.place }
    requires whole { IsFalse cursor.old.checks → HasWhole cursor.old.text (after_space cursor.old.text 0) }
    ensures item { IfOk result (λ more. IsTrue more → ItemsReach cursor.old.text kind given cursor.new.place) }
    ensures closed { IfOk result (λ more. IsFalse more → AreClosed cursor.old.text kind given) }
    ensures moved { cursor.new ≡ record cursor.old { place = cursor.new.place } }
    ensures err { IfErr result (AreStopped cursor.old.text kind given) }
{
    if given == 0 {
        enter(cursor, kind)
    } else {
        pass_separator(cursor, kind, given)
    }
}

// Goes into the container: whether an item is expected.
fn enter(cursor: &mut Cursor<'_>, kind: Kind) -> Result<bool, Stop>
    requires { cursor.old.place ≡ after_space cursor.old.text 0 }
    ensures item { IfOk result (λ more. IsTrue more → ItemsReach cursor.old.text kind 0 cursor.new.place) }
    ensures closed { IfOk result (λ more. IsFalse more → AreClosed cursor.old.text kind 0) }
    ensures moved { cursor.new ≡ record cursor.old { place = cursor.new.place } }
    ensures err { IfErr result (AreStopped cursor.old.text kind 0) }
{
    let place = cursor.place();
    if byte_at(cursor.text(), place) != kind.opening() {
        let code = code_of_start(kind);
        return Err(Stop { place, code });
    }
    Ok(cursor.enter(kind))
}

// Goes on after the last item that was given: whether another one is expected.
fn pass_separator(cursor: &mut Cursor<'_>, kind: Kind, given: usize) -> Result<bool, Stop>
    requires after { IsAfterItems cursor.old.text kind given cursor.old.place }
    requires whole { IsFalse cursor.old.checks → HasWhole cursor.old.text (after_space cursor.old.text 0) }
    requires some { 0 < given }
    ensures item { IfOk result (λ more. IsTrue more → ItemsReach cursor.old.text kind given cursor.new.place) }
    ensures closed { IfOk result (λ more. IsFalse more → AreClosed cursor.old.text kind given) }
    ensures moved { cursor.new ≡ record cursor.old { place = cursor.new.place } }
    ensures err { IfErr result (AreStopped cursor.old.text kind given) }
{
    match cursor.next_item(kind) {
        Ok(more) => Ok(more),
        Err(Stop { place, .. }) => {
            let code = kind.code_after_item();
            Err(Stop { place, code })
        }
    }
}

// Whether no item begins at the cursor, where one is expected.
fn begins_none(cursor: &Cursor<'_>, kind: Kind, given: usize) -> bool
    ensures { IsTrue result ↔ BeginsNoItem cursor.now.text kind given cursor.now.place }
{
    match kind {
        Kind::Array => given == 0 && cursor.place() == cursor.text().len(),
        Kind::Object => byte_at(cursor.text(), cursor.place()) != b'"',
    }
}

// Passes what comes before the value of the item at the cursor.
fn pass_head(cursor: &mut Cursor<'_>, kind: Kind) -> Result<Option<ValueSpan>, Stop>
    requires { kind ≡ Kind.Object → IsAtKey cursor.old }
    ensures ok { IfOk result (IsFoundHead cursor.old.text kind cursor.old.place cursor.new.place) }
    ensures moved { cursor.new ≡ record cursor.old { place = cursor.new.place } }
    ensures err { IfErr result (λ s. (kind ≡ Kind.Object)
        × IsKeyFault strict cursor.old.text cursor.old.place s) }
{
    match kind {
        Kind::Array => Ok(None),
        Kind::Object => Ok(Some(cursor.key()?)),
    }
}

// The code where no item of a container of this kind begins after those that were given.
fn code_before_item(kind: Kind, given: usize) -> ErrorCode
    ensures { result ≡ code_before_item kind given }
{
    match kind {
        Kind::Array => ErrorCode::ExpectedArrayCommaOrEnd,
        Kind::Object if given == 0 => ErrorCode::ExpectedObjectCommaOrEnd,
        Kind::Object => ErrorCode::ExpectObjectKeyOrEnd,
    }
}

// The code where no container of this kind begins.
fn code_of_start(kind: Kind) -> ErrorCode
    ensures { result ≡ code_of_start kind }
{
    match kind {
        Kind::Array => ErrorCode::ExpectedArrayStart,
        Kind::Object => ErrorCode::ExpectedObjectStart,
    }
}
