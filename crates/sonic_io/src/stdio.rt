//! The source and the sink over the system, as standard input and output.
ghost use Rattle.std.specs.Prelude.{◌≡◌, ◌<◌, ◌≤◌, ◌^◌, None, length, IfOk, OnOk, OnErr};
ghost use Rattle.std.specs.Io.KnownBytes.{Keeps, ReadConsumes, WriteAppends};
ghost use Rattle.sonic_io.specs.Outside.{Rose};

use crate::faults::Faults;
use crate::sink::Sink;
use crate::source::{Failed, Source};
use std::io::{Read, Write};
use std::marker::Model;

/// A source over a reader of the system, as standard input.
///
/// Nothing is known of its bytes. An interrupted call is a fault as any other.
#[derive(Debug, Drop)]
pub struct InputSource<R> {
    reader: R,
    faults: Faults,
}

impl<R> Model for InputSource<R> {
    ghost use Rattle.std.specs.Prelude.{◌<◌, ◌^◌};
    ghost use Rattle.sonic_io.specs.System.{Reading};

    ghost Value = { Reading R };

    ghost view = { λ source. record { reader = source.reader; faults = source.faults } };

    ghost invariant = { λ source. source.faults < 2 ^ 64 };
}

impl<R: Read> InputSource<R> {
    /// A source that gives what `reader` gives, and has seen no fault.
    pub fn new(reader: R) -> Self
        ensures { ⟦<InputSource<R> as Source>⟧.faults result ≡ 0 }
    {
        let faults = Faults::new();
        InputSource { reader, faults }
    }
}

impl<R: Read> Source for InputSource<R> {
    ghost left = { λ _. None };

    ghost faults = { λ source. source.faults };

    fn read(&mut self, room: &mut [u8]) -> Result<usize, Failed>
        ensures bound { IfOk result (λ count. count ≤ length room.new) }
        ensures reader { ReadConsumes (R.remaining self.old.reader) (R.remaining self.new.reader) result room.new }
        ensures small { self.new.faults < 2 ^ 64 }
        ensures calm { OnOk result (self.new.faults ≡ self.old.faults) }
        ensures cause { OnErr result (Rose self.old.faults self.new.faults) }
    {
        match self.reader.read(room) {
            Ok(count) => Ok(count),
            Err(_) => Err(self.faults.fail()),
        }
    }
}

/// A sink over a writer of the system, as standard output.
///
/// Nothing is known of its bytes. An interrupted call is a fault as any other, and so is a write of
/// nothing.
#[derive(Debug, Drop)]
pub struct OutputSink<W> {
    writer: W,
    faults: Faults,
}

impl<W> Model for OutputSink<W> {
    ghost use Rattle.std.specs.Prelude.{◌<◌, ◌^◌};
    ghost use Rattle.sonic_io.specs.System.{Writing};

    ghost Value = { Writing W };

    ghost view = { λ sink. record { writer = sink.writer; faults = sink.faults } };

    ghost invariant = { λ sink. sink.faults < 2 ^ 64 };
}

impl<W: Write> OutputSink<W> {
    /// A sink that writes to `writer`, and has seen no fault.
    pub fn new(writer: W) -> Self
        ensures { ⟦<OutputSink<W> as Sink>⟧.faults result ≡ 0 }
    {
        let faults = Faults::new();
        OutputSink { writer, faults }
    }
}

impl<W: Write> Sink for OutputSink<W> {
    ghost written = { λ _. None };

    ghost sent = { λ _. None };

    ghost faults = { λ sink. sink.faults };

    fn write(&mut self, piece: &[u8]) -> Result<usize, Failed>
        requires { 0 < length piece.now }
        ensures bound { IfOk result (λ count. (0 < count) × (count ≤ length piece.now)) }
        ensures writer { WriteAppends (W.contents self.old.writer) (W.contents self.new.writer) result piece.now }
        ensures small { self.new.faults < 2 ^ 64 }
        ensures calm { OnOk result (self.new.faults ≡ self.old.faults) }
        ensures cause { OnErr result (Rose self.old.faults self.new.faults) }
    {
        match self.writer.write(piece) {
            Ok(count) if count > 0 => Ok(count),
            _ => Err(self.faults.fail()),
        }
    }

    fn finish(&mut self) -> Result<(), Failed>
        ensures writer { Keeps (W.contents self.old.writer) (W.contents self.new.writer) }
        ensures small { self.new.faults < 2 ^ 64 }
        ensures calm { OnOk result (self.new.faults ≡ self.old.faults) }
        ensures cause { OnErr result (Rose self.old.faults self.new.faults) }
    {
        match self.writer.flush() {
            Ok(()) => Ok(()),
            Err(_) => Err(self.faults.fail()),
        }
    }
}
