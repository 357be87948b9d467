//! The top call.
ghost use Rattle.std.specs.Prelude.{◌≡◌, map, string_bytes, IsOk, IfOk, IsErrOf, IsOkAnd};
ghost use Rattle.sonic_reports.specs.Commands.{IsListed, IsReading};
ghost use Rattle.sonic_reports.specs.Internal.Replies.{text_of};
ghost use Rattle.sonic_reports.specs.Internal.Requests.{HasWidth, IsAsked, IsAnswered};
ghost use Rattle.sonic_io.specs.Outside.{Rose};
ghost use Rattle.sonic_reports.specs.Sessions.{outside_of, session_of, IsRun};

use crate::commands::{
    Command, asked_command, edit, fast, fill, generated, get, index, lines, list, patch, texts,
};
use crate::reply::{Reply, deliver};
use crate::status::Status;
use sonic_io::{Failed, ReadError, Sink, Source, read_all};
use std::alloc::{AllocError, Global};
use std::borrow::CowStr;

/// Reads the whole input, where a command asks for it, and writes the report.
///
/// `words` are the words of the command line after the program's name. No word and the one word
/// `get` ask for the command that follows the paths of the input's head, by first equal keys; the three
/// words `get`, `--keys` and `first`, `last` or `refuse` for the same under that rule; `list` for the items of
/// the container that the input is, `edit` for the document as the edits of the input's head make it,
/// `fill` for the schema in the first line as the rest fills it, `patch` for the rest as the patch in the
/// first line makes it, `fast` for what `get` asks for where
/// the document is valid as a whole, `index` for where each of its values is, `lines` for where the
/// paths of the head lead in each line after it, and `min` for the document without white space. The
/// two words `indent` and a number up to `MOST_BLANKS` ask for the document over lines, and `gen` and a
/// number from 1 to `MOST` for counts over a document of so many objects that the command makes itself.
/// All others are answered by `! usage`. There and for `gen` the source isn't read. All memory is taken
/// before the first byte is written.
///
/// `IsRun` says for each status what the run has done, over the words and the outside before and
/// after. Of no words and the input `[2,1]`, an empty line and `[1, null, [20, 300]]` it writes the
/// line `3 300` and answers `Done`. The format of input and report is the project's own.
pub fn run<S: Source, K: Sink>(
    alloc: Global,
    words: &[String],
    source: &mut S,
    sink: &mut K,
) -> Status
    ensures outcome { IsRun (session_of (map string_bytes words.now)
        (outside_of (S.left source.old) (S.faults source.old) (K.written sink.old) (K.sent sink.old) (K.faults sink.old))
        (outside_of (S.left source.new) (S.faults source.new) (K.written sink.new) (K.sent sink.new) (K.faults sink.new)))
        result }
    // Words that ask for no command that reads leave the source as it is.
    ensures unread { ¬ IsReading (map string_bytes words.now) → source.new ≡ source.old }
{
    let request = match prepare(alloc, words, source) {
        Ok(request) => request,
        Err(Unprepared::Fault) => return Status::ReadFault,
        Err(Unprepared::Memory) => return Status::NoMemory,
    };
    let Ok(reply) = answer(alloc, &request) else {
        return Status::NoMemory;
    };
    let status = reply.status;
    match deliver(sink, reply) {
        Ok(()) => status,
        Err(Failed) => Status::WriteFault,
    }
}

// What is to be answered.
#[derive(Drop)]
enum Request {
    // Words that ask for no command.
    Usage,
    // More bytes than an input may have.
    Large,
    // A command, and the input that was read to its end, if the command reads one.
    Input(Command, Vec<u8>),
}

// Why there is nothing to answer.
#[derive(Clone, Copy)]
enum Unprepared {
    // A read failed.
    Fault,
    // Memory ran out.
    Memory,
}

// Looks at the words, and reads the input.
fn prepare<S: Source>(
    alloc: Global,
    words: &[String],
    source: &mut S,
) -> Result<Request, Unprepared>
    ensures asked { IfOk result
        (IsAsked (map string_bytes words.now) (S.left source.old) (S.left source.new)) }
    ensures cause { IsErrOf result Unprepared.Fault → Rose (S.faults source.old) (S.faults source.new) }
    ensures calm { ¬ IsErrOf result Unprepared.Fault → S.faults source.new ≡ S.faults source.old }
    ensures unlisted { ¬ IsListed (map string_bytes words.now)
        → IsOkAnd result (λ request. request ≡ Request.Usage) }
    ensures unread { ¬ IsReading (map string_bytes words.now) → source.new ≡ source.old }
    ensures reading { IsErrOf result Unprepared.Fault → IsReading (map string_bytes words.now) }
{
    let Some(command) = asked_command(words) else {
        return Ok(Request::Usage);
    };
    if let Command::Gen(_) = command {
        return Ok(Request::Input(command, Vec::new(alloc)));
    }
    match read_all(alloc, source) {
        Ok(input) => Ok(Request::Input(command, input)),
        Err(ReadError::TooLarge) => Ok(Request::Large),
        Err(ReadError::Fault) => Err(Unprepared::Fault),
        Err(ReadError::Memory) => Err(Unprepared::Memory),
    }
}

// Makes the report. All memory that it takes is taken here.
fn answer<'i>(alloc: Global, request: &'i Request) -> Result<Reply<'i>, AllocError>
    requires width { HasWidth request.now }
    ensures answered { IfOk result (λ reply. IsAnswered request.now (text_of reply) reply.status) }
    ensures usage { request.now ≡ Request.Usage → IsOk result }
{
    match request {
        Request::Usage => Ok(Reply::one(alloc, Status::BadUsage, CowStr::Borrowed("! usage\n"))),
        Request::Large => Ok(Reply::one(alloc, Status::TooLarge, CowStr::Borrowed("! large\n"))),
        Request::Input(Command::Get(rule), input) => get::report(alloc, input, *rule),
        Request::Input(Command::List, input) => list::report(alloc, input),
        Request::Input(Command::Edit, input) => edit::report(alloc, input),
        Request::Input(Command::Fill, input) => fill::report(alloc, input),
        Request::Input(Command::Fast, input) => fast::report(alloc, input),
        Request::Input(Command::Indent(width), input) => texts::indented(alloc, input, *width),
        Request::Input(Command::Index, input) => index::report(alloc, input),
        Request::Input(Command::Lines, input) => lines::report(alloc, input),
        Request::Input(Command::Min, input) => texts::minified(alloc, input),
        Request::Input(Command::Patch, input) => patch::report(alloc, input),
        Request::Input(Command::Gen(count), _) => generated::report(alloc, *count),
    }
}
