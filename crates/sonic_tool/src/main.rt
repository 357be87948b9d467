//! A command that reads a JSON text from standard input and writes its report to standard output.
#![tactic(auto)]

ghost use Rattle.std.specs.Prelude.{◌≡◌};
ghost use Rattle.std.specs.Process.{exit_status};
ghost use Rattle.sonic_reports.specs.Sessions.{outside_of};
ghost use Rattle.sonic_tool.specs.Endings.{number_of_status, IsProgram, IsProcess};

// The words of the command line.
mod words;

use crate::words::{Wordless, words_of};
use sonic_io::{InputSource, OutputSink, Sink, Source};
use sonic_reports::{Status, run};
use std::alloc::Global;
use std::env::Args;
use std::io::{Read, Write};
use std::process::ExitCode;
use std::{env, io};

// What the process ends with.
fn ending(status: Status) -> ExitCode
    ensures { exit_status result ≡ number_of_status status }
{
    ExitCode::from(status as u8)
}

// Runs the words of the arguments, over a source and a sink.
fn program<S: Source, K: Sink>(
    alloc: Global,
    arguments: io::Result<Args>,
    source: &mut S,
    sink: &mut K,
) -> ExitCode
    ensures { IsProgram arguments
        (outside_of (S.left source.old) (S.faults source.old) (K.written sink.old) (K.sent sink.old) (K.faults sink.old))
        (outside_of (S.left source.new) (S.faults source.new) (K.written sink.new) (K.sent sink.new) (K.faults sink.new))
        (exit_status result) }
{
    match words_of(alloc, arguments) {
        Ok(words) => ending(run(alloc, &words, source, sink)),
        // One empty word takes no memory.
        Err(Wordless::NoText) => ending(run(alloc, &[String::new(alloc)], source, sink)),
        Err(Wordless::NoMemory) => ending(Status::NoMemory),
    }
}

// Runs the words of the arguments, over a reader and a writer of the system.
fn process<R: Read + Drop, W: Write + Drop>(
    alloc: Global,
    arguments: io::Result<Args>,
    reader: R,
    writer: W,
) -> ExitCode
    ensures { IsProcess arguments (exit_status result) }
{
    let mut source = InputSource::new(reader);
    let mut sink = OutputSink::new(writer);
    program(alloc, arguments, &mut source, &mut sink)
}

fn main(rt: HostRuntime) -> ExitCode {
    process(rt.alloc(), env::args(&rt), rt.stdin(), rt.stdout())
}
