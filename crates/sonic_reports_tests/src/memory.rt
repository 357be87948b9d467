// Whole runs over the forms in memory: one call after the other fails, and pieces of each size come.
ghost use Rattle.std.specs.Prelude.{None};

use crate::rows::owned;
use crate::same::{same, same_at};
use sonic_io::{Failed, MemorySink, MemorySource, Source};
use sonic_reports::{Status, run};
use std::alloc::Global;
use std::test::Fail;

// The example of the README, whose input is the program's too.
const INPUT: &[u8] =
    b"[\"u\"]\n[\"unknown_key\"]\n[\"a\",\"b\",\"c\",1]\n\n\n{\"u\": 123, \"a\": {\"b\" : {\"c\": [null, \"found\"]}}}";

const REPORT: &[u8] = b"3 123\n-\n7 \"found\"\n";

// A source of the example by pieces of such a size, that fails in one call.
fn example(alloc: Global, piece: usize, fails: u64) -> Result<MemorySource, Fail> {
    let input = Vec::from_slice(alloc, INPUT)?;
    let failing = Vec::from_slice(alloc, &[fails])?;
    Ok(MemorySource::new(input, piece.max(1), failing))
}

// A sink with room for the report, that takes pieces of such a size and fails in one call.
fn small_sink(alloc: Global, piece: usize, fails: u64) -> Result<MemorySink, Fail> {
    let failing = Vec::from_slice(alloc, &[fails])?;
    let sink = MemorySink::new(alloc, 18, piece.max(1), failing).ok();
    Ok(sink.ok_or("no memory")?)
}

// How `get` ends.
fn get<S: Source>(alloc: Global, source: &mut S, sink: &mut MemorySink) -> Result<Status, Fail> {
    Ok(run(alloc, &owned(alloc, &[])?, source, sink))
}

// The call after the last byte is the one that tells the end.
#[test]
fn writes_nothing_where_a_read_fails(rt: HostRuntime) -> Result<(), Fail> {
    let alloc = rt.alloc();
    let last = (INPUT.len() as u64).saturating_add(1);
    for call in 1..=last {
        let mut sink = small_sink(alloc, 1, 0)?;
        let status = get(alloc, &mut example(alloc, 1, call)?, &mut sink)?;
        same_at(&rt, status, Status::ReadFault, call);
        same_at(&rt, sink.written(), b"".as_slice(), call);
    }
    let mut sink = small_sink(alloc, 1, 0)?;
    let mut source = example(alloc, 1, last.saturating_add(1))?;
    same(&rt, get(alloc, &mut source, &mut sink)?, Status::Done);
    same(&rt, sink.written(), REPORT);
    Ok(())
}

// By pieces of one byte call 19 is the finish, and by pieces of four call 6.
#[test]
fn writes_a_prefix_where_a_write_fails(rt: HostRuntime) -> Result<(), Fail> {
    let alloc = rt.alloc();
    for &(piece, finish) in &[(1usize, 19u64), (4, 6)] {
        for call in 1..=finish.saturating_add(1) {
            let mut sink = small_sink(alloc, piece, call)?;
            let status = get(alloc, &mut example(alloc, 9, 0)?, &mut sink)?;
            let count = piece.saturating_mul(call as usize - 1).min(18);
            same_at(&rt, status == Status::Done, call > finish, (piece, call));
            same_at(
                &rt,
                status == Status::WriteFault,
                call <= finish,
                (piece, call),
            );
            same_at(&rt, sink.written(), &REPORT[..count], (piece, call));
        }
    }
    Ok(())
}

// A source of the example that gives one byte, and then up to as many as there is room for, by turns.
#[derive(Drop)]
struct Uneven {
    at: usize,
    turn: usize,
}

impl Source for Uneven {
    ghost left = { λ _. None };

    ghost faults = { λ _. 0 };

    fn read(&mut self, room: &mut [u8]) -> Result<usize, Failed> {
        self.turn = self.turn.wrapping_mul(25_214_903_917).wrapping_add(11);
        let most = if self.turn & 1 == 0 {
            1
        } else {
            (self.turn >> 16) % 40 + 1
        };
        let from = &INPUT[self.at.min(INPUT.len())..];
        let count = from.len().min(room.len()).min(most);
        room[..count].copy_from_slice(&from[..count]);
        self.at = self.at.saturating_add(count);
        Ok(count)
    }
}

#[test]
fn reads_pieces_of_any_size(rt: HostRuntime) -> Result<(), Fail> {
    let alloc = rt.alloc();
    for turn in 0..100 {
        let mut source = Uneven { at: 0, turn };
        let mut sink = small_sink(alloc, 1, 0)?;
        same_at(&rt, get(alloc, &mut source, &mut sink)?, Status::Done, turn);
        same_at(&rt, sink.written(), REPORT, turn);
    }
    Ok(())
}

// The paths of 20,000 keys, and an object without them, of 32 MB.
fn many_paths(alloc: Global) -> Result<Vec<u8>, Fail> {
    let mut input = Vec::new(alloc);
    for number in 0..20_000 {
        input.extend_from_slice(format!(in alloc; "[\"k{number}\"]\n")?.as_bytes())?;
    }
    input.extend_from_slice(b"\n{\"x\":\"")?;
    input.extend_from_slice(&vec![in alloc; b'a'; 32_000_000]?)?;
    input.extend_from_slice(b"\"}")?;
    Ok(input)
}

#[test]
fn lacks_20_000_keys_in_32_mb(rt: HostRuntime) -> Result<(), Fail> {
    let alloc = rt.alloc();
    let mut source = MemorySource::new(many_paths(alloc)?, 65_536, Vec::new(alloc));
    let mut sink = MemorySink::new(alloc, 40_000, 40_000, Vec::new(alloc))
        .ok()
        .ok_or("no memory")?;
    let mut lines = Vec::new(alloc);
    for _ in 0..20_000 {
        lines.extend_from_slice(b"-\n")?;
    }
    same(&rt, get(alloc, &mut source, &mut sink)?, Status::Done);
    assert!(rt; sink.written() == lines.as_slice());
    Ok(())
}
