// A gateway that reads the subject of a token from a request's body.
ghost use Rattle.std.specs.Prelude.{◌≡◌, ◌≢◌, IfOk, IfErr};
ghost use Rattle.sonic_examples.specs.Subjects.{IsSubject, IsRejection};

use sonic_error::{Category, Error};
use sonic_lazy::get;
use sonic_pointer::pointer;
use std::alloc::Global;
use std::borrow::CowStr;
use std::io;

/// Why a request is turned away.
#[derive(Clone, Copy, Debug, PartialEq, Eq)]
pub enum Rejection {
    /// The body has no token, or the token no subject.
    Missing,
    /// The body, the token or the subject is something else than an object, an object and a string.
    WrongType,
    /// The body isn't JSON as far as it was read: the line and the column, from 1, where it stops.
    Broken { line: usize, column: usize },
    /// Memory ran out.
    OutOfMemory,
}

impl Rejection {
    /// The status of the response (RFC 9110, section 15).
    pub fn status(self) -> u16
        ensures ours { self ≡ Rejection.OutOfMemory → result ≡ 503 }
        ensures theirs { self ≢ Rejection.OutOfMemory → result ≡ 400 }
    {
        match self {
            Rejection::OutOfMemory => 503,
            _ => 400,
        }
    }
}

impl From<Error> for Rejection {
    ghost use Rattle.std.specs.Prelude.{◌≡◌};
    ghost use Rattle.sonic_examples.specs.Subjects.{rejection_of};

    ghost from_gives = { λ error rejection. rejection ≡ rejection_of error };

    fn from(error: Error) -> Rejection {
        match error.classify() {
            Category::NotFound => Rejection::Missing,
            Category::TypeUnmatched => Rejection::WrongType,
            Category::Memory => Rejection::OutOfMemory,
            Category::Syntax | Category::Eof | Category::Io => Rejection::Broken {
                line: error.line(),
                column: error.column(),
            },
        }
    }
}

/// The subject of the token in a request's body.
///
/// What follows the subject isn't read. Of `{"token":{"sub":"ada"}}` it is `ada`.
pub fn subject<'t>(alloc: Global, body: &'t [u8]) -> Result<CowStr<'t>, Rejection>
    ensures ok { IfOk result (IsSubject body.now) }
    ensures err { IfErr result (IsRejection body.now) }
{
    let value = get(alloc, body, &pointer!["token", "sub"])?;
    match value.as_str(alloc)? {
        Some(text) => Ok(text),
        None => Err(Rejection::WrongType),
    }
}

const BODIES: [&str; 6] = [
    r#"{"token": {"sub": "ada", "exp": 1700000000}}"#,
    r#"{"token": {"sub": "Zo\u00eb"}}"#,
    r#"{"token": {"exp": 1700000000}}"#,
    r#"{"token": {"sub": 7}}"#,
    r#"{"token": ["ada"]}"#,
    "{\"token\":\n {\"sub\" \"ada\"}}",
];

/// What the gateway answers.
pub fn show(rt: &impl Print, alloc: Global) -> io::Result<()> {
    for body in BODIES {
        match subject(alloc, body.as_bytes()) {
            Ok(text) => println!(rt; "200 {text}")?,
            Err(rejection) => println!(rt; "{} {rejection:?}", rejection.status())?,
        }
    }
    Ok(())
}
