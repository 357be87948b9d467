// What passes a reader and a writer of the system.
use crate::same::{same, same_at};
use sonic_io::{Failed, InputSource, OutputSink, ReadError, Sink, read_all, write_all};
use std::alloc::Global;
use std::io;
use std::io::{ErrorKind, Read, Write};
use std::process::Abort;
use std::test::Fail;

// A reader and a writer of the text `[7]`, a byte a call, whose call number `fails` fails.
#[derive(Drop)]
struct Stumbling {
    calls: u64,
    fails: u64,
    kind: ErrorKind,
    written: Vec<u8>,
}

impl Stumbling {
    fn new(alloc: Global, fails: u64, kind: ErrorKind) -> Stumbling {
        let written = Vec::new(alloc);
        Stumbling {
            calls: 0,
            fails,
            kind,
            written,
        }
    }

    fn call(&mut self) -> io::Result<()> {
        self.calls = self.calls.saturating_add(1);
        if self.calls == self.fails {
            return Err(io::Error::from(self.kind));
        }
        Ok(())
    }
}

impl Read for Stumbling {
    fn read(&mut self, room: &mut [u8]) -> io::Result<usize> {
        self.call()?;
        if room.is_empty() {
            return Ok(0);
        }
        room[0] = match self.calls {
            1 => b'[',
            2 => b'7',
            3 => b']',
            _ => return Ok(0),
        };
        Ok(1)
    }
}

impl Write for Stumbling {
    fn write(&mut self, piece: &[u8]) -> io::Result<usize> {
        self.call()?;
        if piece.is_empty() || self.kind == ErrorKind::WriteZero && self.written.len() == 2 {
            return Ok(0);
        }
        self.written.push(piece[0])?;
        Ok(1)
    }

    fn flush(&mut self) -> io::Result<()> {
        self.call()
    }
}

fn check_input(rt: &impl Abort, alloc: Global, fails: u64, kind: ErrorKind) -> Result<(), Fail> {
    let mut source = InputSource::new(Stumbling::new(alloc, fails, kind));
    let error = read_all(alloc, &mut source).err();
    same_at(rt, error, Some(ReadError::Fault), fails);
    Ok(())
}

#[test]
fn reads_from_a_reader(rt: HostRuntime) -> Result<(), Fail> {
    let alloc = rt.alloc();
    let mut source = InputSource::new(Stumbling::new(alloc, 0, ErrorKind::Other));
    same(
        &rt,
        read_all(alloc, &mut source)?.as_slice(),
        b"[7]".as_slice(),
    );
    check_input(&rt, alloc, 1, ErrorKind::Other)?;
    check_input(&rt, alloc, 2, ErrorKind::Interrupted)?;
    check_input(&rt, alloc, 4, ErrorKind::WouldBlock)
}

// Writes the pieces, and finishes the sink.
pub(crate) fn deliver<K: Sink>(sink: &mut K, pieces: &[&[u8]]) -> Result<(), Failed> {
    for piece in pieces {
        write_all(sink, piece)?;
    }
    sink.finish()
}

// What `writer` has taken, and how the delivery of `[7]` in two pieces ends.
fn check_output(
    rt: &impl Abort,
    mut writer: Stumbling,
    ending: Result<(), Failed>,
    written: &[u8],
) -> Result<(), Fail> {
    let result = deliver(&mut OutputSink::new(&mut writer), &[b"[", b"7]"]);
    same(rt, result, ending);
    same(rt, writer.written.as_slice(), written);
    Ok(())
}

#[test]
fn writes_to_a_writer(rt: HostRuntime) -> Result<(), Fail> {
    let alloc = rt.alloc();
    let other = ErrorKind::Other;
    check_output(&rt, Stumbling::new(alloc, 0, other), Ok(()), b"[7]")?;
    check_output(&rt, Stumbling::new(alloc, 1, other), Err(Failed), b"")?;
    let interrupted = Stumbling::new(alloc, 3, ErrorKind::Interrupted);
    check_output(&rt, interrupted, Err(Failed), b"[7")?;
    let full = Stumbling::new(alloc, 0, ErrorKind::WriteZero);
    check_output(&rt, full, Err(Failed), b"[7")?;
    let unfinished = Stumbling::new(alloc, 4, other);
    check_output(&rt, unfinished, Err(Failed), b"[7]")
}
