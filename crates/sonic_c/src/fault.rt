// The errors that a caller is told.
ghost use Rattle.std.specs.Prelude.{◌≡◌, ◌≤◌, length};
ghost use Rattle.sonic_c.specs.Internal.Numbers.{numbers_of};
ghost use Rattle.sonic_c.specs.Statuses.{status_document_error};
ghost use Rattle.sonic_c.specs.Told.{at_line, AreNumbersOf};
ghost use Rattle.sonic_c.specs.Internal.Told.{TellsError, TellsErrorAs};

use crate::code::number;
use crate::status::{DOCUMENT_ERROR, NO_MEMORY};
use sonic_error::{Error, ErrorCode};
use sonic_text::Stop;

/// What is wrong and where, in numbers.
#[repr(C)]
#[derive(Clone, Copy)]
pub struct Fault {
    /// The number of the error's code, of which `jihluka_code_text` tells the text, or 0 where the paths
    /// are wrong.
    pub code: u32,
    /// The line, from 1.
    pub line: usize,
    /// The column, from 1, in bytes.
    pub column: usize,
    /// The offset, from 0, in bytes.
    pub offset: usize,
}

impl Fault {
    // The numbers of an error.
    pub(crate) fn of(error: &Error) -> Fault
        ensures { result ≡ numbers_of error.now }
    {
        Fault {
            code: number(error.code()),
            line: error.line(),
            column: error.column(),
            offset: error.offset(),
        }
    }

    // A line of the paths, or how many there are.
    pub(crate) fn at_line(line: usize) -> Fault
        ensures { result ≡ at_line line }
    {
        Fault {
            code: 0,
            line,
            column: 0,
            offset: 0,
        }
    }
}

// Tells an error of the library, unless memory ran out, and gives the status.
pub(crate) fn tell(told: &mut Fault, error: &Error) -> u32
    ensures { TellsError error.now told.old told.new result }
{
    tell_as(told, error, DOCUMENT_ERROR)
}

// The same with this status.
pub(crate) fn tell_as(told: &mut Fault, error: &Error, status: u32) -> u32
    ensures { TellsErrorAs status error.now told.old told.new result }
{
    if let ErrorCode::NoMemory = error.code() {
        return NO_MEMORY;
    }
    *told = Fault::of(error);
    status
}

// Tells an error of a text that is at a stop, and gives the status.
pub(crate) fn tell_stop(told: &mut Fault, text: &[u8], stop: Stop) -> u32
    requires { stop.place ≤ length text.now }
    ensures numbers { AreNumbersOf text.now stop told.new }
    ensures status { result ≡ status_document_error }
{
    *told = Fault::of(&Error::syntax(stop.code, text, stop.place));
    DOCUMENT_ERROR
}
