//! The sources and the sinks over memory.
ghost use Rattle.std.specs.Prelude.{◌≡◌, ◌↔◌, ◌⊎◌, ◌++◌, ◌-◌, ◌<◌, ◌≤◌, ◌^◌, min, Ok, Some, None, List, [], length, take, replicate, vec_capacity, IsOk, IfOk, IfErr, IsErr, OnOk, OnErr};
ghost use Rattle.std.specs.Io.KnownBytes.{IsAtEnd};
ghost use Rattle.sonic_error.specs.Errors.{IsPlainError};
ghost use Rattle.sonic_io.specs.Memory.{Supply, IsToFail, uncalled, worked, failed, portion, without};
ghost use Rattle.sonic_io.specs.Outside.{Gave};

use crate::faults::Calls;
use crate::sink::Sink;
use crate::source::{Failed, Source};
use sonic_error::{Error, ErrorCode};
use std::alloc::Global;
use std::marker::Model;

/// Bytes that are given a piece at a time.
#[derive(Debug, Drop)]
pub struct Stock {
    bytes: Vec<u8>,
    at: usize,
    piece: usize,
}

impl Model for Stock {
    ghost use Rattle.std.specs.Prelude.{◌≤◌, drop, length};
    ghost use Rattle.sonic_io.specs.Memory.{Supply};

    ghost Value = { Supply };

    ghost view = { λ stock. record { left = drop stock.at stock.bytes.items; piece = stock.piece } };

    ghost invariant = { λ stock. (stock.at ≤ length stock.bytes.items) × (1 ≤ stock.piece) };
}

impl Stock {
    /// All of `bytes`, of which a call gives at most `piece`.
    fn new(bytes: Vec<u8>, piece: usize) -> Stock
        requires { 1 ≤ piece }
        ensures left { result.left ≡ bytes.items }
        ensures piece { result.piece ≡ piece }
    {
        Stock {
            bytes,
            at: 0,
            piece,
        }
    }

    /// Copies the next bytes to the start of `room`, and answers how many they are.
    fn give(&mut self, room: &mut [u8]) -> usize
        ensures count { result ≡ portion self.old (length room.old) }
        ensures given { take result room.new ≡ take result self.old.left }
        ensures left { self.new ≡ without self.old result }
        ensures end { result ≡ 0 → 0 < length room.old → self.old.left ≡ [] }
    {
        let from = &self.bytes[self.at..];
        let count = room.len().min(self.piece.min(from.len()));
        room[..count].copy_from_slice(&from[..count]);
        self.at += count;
        count
    }
}

/// A source over bytes in memory. It never fails.
#[derive(Debug, Drop)]
pub struct SureSource {
    stock: Stock,
}

impl Model for SureSource {
    ghost use Rattle.sonic_io.specs.Memory.{Supply};

    ghost Value = { Supply };

    ghost view = { λ source. source.stock };
}

impl SureSource {
    /// A source of all of `bytes`, that gives at most `piece` of them in one call.
    ///
    /// Of `[7]` by pieces of 2 its calls give `[7`, then `]`, and then nothing.
    pub fn new(bytes: Vec<u8>, piece: usize) -> SureSource
        requires { 1 ≤ piece }
        ensures all { ⟦<SureSource as Source>⟧.left result ≡ Some bytes.items }
        ensures piece { result.piece ≡ piece }
        ensures calm { ⟦<SureSource as Source>⟧.faults result ≡ 0 }
    {
        let stock = Stock::new(bytes, piece);
        SureSource { stock }
    }
}

impl Source for SureSource {
    ghost left = { λ source. Some source.left };

    ghost faults = { λ _. 0 };

    fn read(&mut self, room: &mut [u8]) -> Result<usize, Failed>
        ensures sure { IsOk result }
        ensures count { IfOk result (λ count. count ≡ portion self.old (length room.old)) }
        ensures given { IfOk result (λ count. take count room.new ≡ take count self.old.left) }
        ensures left { IfOk result (λ count. self.new ≡ without self.old count) }
        ensures end { IfOk result (λ count.
            count ≡ 0 → 0 < length room.new → IsAtEnd (Some self.new.left)) }
    {
        Ok(self.stock.give(room))
    }
}

/// A source over bytes in memory, that fails in the calls that it is made to fail in.
#[derive(Debug, Drop)]
pub struct MemorySource {
    stock: Stock,
    calls: Calls,
}

impl Model for MemorySource {
    ghost use Rattle.sonic_io.specs.Memory.{Stocked};

    ghost Value = { Stocked };

    ghost view = { λ source. record { stock = source.stock; calls = source.calls } };
}

impl MemorySource {
    /// A source of all of `bytes`, that gives at most `piece` of them in one call. The calls whose
    /// numbers, from 1, `fails` lists are to fail.
    ///
    /// Of `[7]` by pieces of 2 and 2 as a failing call it gives `[7`, fails, and gives `]`.
    pub fn new(bytes: Vec<u8>, piece: usize, fails: Vec<u64>) -> MemorySource
        requires { 1 ≤ piece }
        ensures all { ⟦<MemorySource as Source>⟧.left result ≡ Some bytes.items }
        ensures piece { result.stock.piece ≡ piece }
        ensures calm { ⟦<MemorySource as Source>⟧.faults result ≡ 0 }
        ensures calls { result.calls ≡ uncalled fails.items }
    {
        let stock = Stock::new(bytes, piece);
        let calls = Calls::new(fails);
        MemorySource { stock, calls }
    }
}

impl Source for MemorySource {
    ghost left = { λ source. Some source.stock.left };

    ghost faults = { λ source. source.calls.faults };

    fn read(&mut self, room: &mut [u8]) -> Result<usize, Failed>
        ensures fails { IsErr result ↔ IsToFail self.old.calls }
        ensures count { IfOk result (λ count. count ≡ portion self.old.stock (length room.old)) }
        ensures given { IfOk result (λ count. take count room.new ≡ take count self.old.stock.left) }
        ensures left { IfOk result (λ count. self.new.stock ≡ without self.old.stock count) }
        ensures end { IfOk result (λ count.
            count ≡ 0 → 0 < length room.new → IsAtEnd (Some self.new.stock.left)) }
        ensures kept { OnErr result (self.new.stock ≡ self.old.stock) }
        ensures small { self.old.calls.faults < 2 ^ 64 }
        ensures ok { OnOk result (self.new.calls ≡ worked self.old.calls) }
        ensures err { OnErr result (self.new.calls ≡ failed self.old.calls) }
    {
        self.calls.next()?;
        Ok(self.stock.give(room))
    }
}

/// A source of one byte, so many times. It never fails, and takes no memory.
#[derive(Debug, Drop)]
pub struct RepeatSource {
    byte: u8,
    times: u64,
}

impl Model for RepeatSource {
    ghost use Rattle.sonic_io.specs.Memory.{Repeated};

    ghost Value = { Repeated };

    ghost view = { λ source. record { byte = source.byte; times = source.times } };
}

impl RepeatSource {
    /// A source that gives `byte`, `times` times in all.
    ///
    /// Of 65 and 3 a room for two bytes takes two `A`, and then one.
    pub fn new(byte: u8, times: u64) -> RepeatSource
        ensures all { ⟦<RepeatSource as Source>⟧.left result ≡ Some (replicate times byte) }
        ensures calm { ⟦<RepeatSource as Source>⟧.faults result ≡ 0 }
    {
        RepeatSource { byte, times }
    }
}

impl Source for RepeatSource {
    ghost left = { λ source. Some (replicate source.times source.byte) };

    ghost faults = { λ _. 0 };

    fn read(&mut self, room: &mut [u8]) -> Result<usize, Failed>
        ensures sure { IsOk result }
        ensures count { IfOk result (λ count. count ≡ min (length room.old) self.old.times) }
        ensures given { IfOk result (λ count. take count room.new ≡ replicate count self.old.byte) }
        ensures times { IfOk result (λ count. self.new.times ≡ self.old.times - count) }
        ensures byte { self.new.byte ≡ self.old.byte }
        ensures all { IfOk result (λ count. Gave (Some (replicate self.old.times self.old.byte))
            (Some (replicate self.new.times self.new.byte)) (take count room.new)) }
        ensures end { IfOk result (λ count.
            count ≡ 0 → 0 < length room.new → IsAtEnd (Some (replicate self.new.times self.new.byte))) }
    {
        let count = room.len().min(self.times as usize);
        room[..count].fill(self.byte);
        self.times -= count as u64;
        Ok(count)
    }
}

/// A sink that takes everything and holds nothing. It never fails.
#[derive(Debug, Drop)]
pub struct SureSink;

impl SureSink {
    /// A sink that has taken nothing.
    pub fn new() -> SureSink
        ensures unknown { ⟦<SureSink as Sink>⟧.written result ≡ None }
        ensures calm { ⟦<SureSink as Sink>⟧.faults result ≡ 0 }
    {
        SureSink
    }
}

impl Sink for SureSink {
    ghost written = { λ _. None };

    ghost sent = { λ _. None };

    ghost faults = { λ _. 0 };

    fn write(&mut self, piece: &[u8]) -> Result<usize, Failed>
        requires { 0 < length piece.now }
        ensures all { result ≡ Ok (length piece.now) }
    {
        Ok(piece.len())
    }

    fn finish(&mut self) -> Result<(), Failed>
        ensures sure { IsOk result }
    {
        Ok(())
    }
}

/// A sink that holds what it takes in memory, and fails in the calls that it is made to fail in.
///
/// Writing and finishing are numbered together from 1, and the calls whose numbers are listed fail.
/// So does a write for which there is no room left.
#[derive(Debug, Drop)]
pub struct MemorySink {
    held: Vec<u8>,
    room: usize,
    piece: usize,
    calls: Calls,
}

impl Model for MemorySink {
    ghost use Rattle.std.specs.Prelude.{◌≤◌, length, vec_capacity};
    ghost use Rattle.sonic_io.specs.Memory.{Holding};

    ghost Value = { Holding };

    ghost view = { λ sink. record {
      held = sink.held.items;
      room = sink.room;
      reserved = vec_capacity sink.held;
      piece = sink.piece;
      calls = sink.calls;
    } };

    ghost invariant = { λ sink.
        (length sink.held.items ≤ sink.room) × (sink.room ≤ vec_capacity sink.held) × (1 ≤ sink.piece) };
}

impl MemorySink {
    /// An empty sink with room for `room` bytes in all, that takes at most `piece` of them in one
    /// call. The calls whose numbers `fails` lists are to fail.
    ///
    /// All its memory is taken here, so that no later call runs out of it. The only error is that
    /// there is none. With pieces of 2 and 3 as a failing call it takes `[1` and `,2` of `[1,2]`.
    pub fn new(
        alloc: Global,
        room: usize,
        piece: usize,
        fails: Vec<u64>,
    ) -> sonic_error::Result<MemorySink>
        requires { 1 ≤ piece }
        ensures empty { IfOk result (λ sink. ⟦<MemorySink as Sink>⟧.written sink ≡ Some []) }
        ensures calm { IfOk result (λ sink. ⟦<MemorySink as Sink>⟧.faults sink ≡ 0) }
        ensures room { IfOk result (λ sink. sink.room ≡ room) }
        ensures piece { IfOk result (λ sink. sink.piece ≡ piece) }
        ensures calls { IfOk result (λ sink. sink.calls ≡ uncalled fails.items) }
        ensures reserved { IfOk result (λ sink. room ≤ sink.reserved) }
        ensures only_memory { IfErr result (λ error. IsPlainError error ErrorCode.NoMemory) }
    {
        let Ok(held) = Vec::with_capacity(alloc, room) else {
            return Err(Error::plain(ErrorCode::NoMemory));
        };
        let calls = Calls::new(fails);
        Ok(MemorySink {
            held,
            room,
            piece,
            calls,
        })
    }

    /// The bytes that it has taken.
    pub fn written(&self) -> &[u8]
        ensures { ⟦<MemorySink as Sink>⟧.written self.now ≡ Some result.now }
    {
        &self.held
    }
}

impl Sink for MemorySink {
    ghost written = { λ sink. Some sink.held };

    ghost sent = { λ sink. Some sink.held };

    ghost faults = { λ sink. sink.calls.faults };

    fn write(&mut self, piece: &[u8]) -> Result<usize, Failed>
        requires { 0 < length piece.now }
        ensures fails { IsErr result ↔ IsToFail self.old.calls ⊎ (self.old.room ≡ length self.old.held) }
        ensures count { IfOk result (λ count.
            count ≡ min (length piece.now) (min self.old.piece (self.old.room - length self.old.held))) }
        ensures some { IfOk result (λ count. 0 < count) }
        ensures held { IfOk result (λ count.
            self.new.held ≡ self.old.held ++ take count piece.now) }
        ensures kept { OnErr result (self.new.held ≡ self.old.held) }
        ensures small { self.old.calls.faults < 2 ^ 64 }
        ensures ok { OnOk result (self.new.calls ≡ worked self.old.calls) }
        ensures err { OnErr result (self.new.calls ≡ failed self.old.calls) }
        ensures room { self.new.room ≡ self.old.room }
        ensures piece { self.new.piece ≡ self.old.piece }
    {
        self.calls.next()?;
        let count = piece.len().min(self.piece.min(self.room - self.held.len()));
        if count == 0 || self.held.extend_from_slice(&piece[..count]).is_err() {
            return Err(self.calls.fail());
        }
        Ok(count)
    }

    fn finish(&mut self) -> Result<(), Failed>
        ensures fails { IsErr result ↔ IsToFail self.old.calls }
        ensures held { self.new.held ≡ self.old.held }
        ensures small { self.old.calls.faults < 2 ^ 64 }
        ensures ok { OnOk result (self.new.calls ≡ worked self.old.calls) }
        ensures err { OnErr result (self.new.calls ≡ failed self.old.calls) }
        ensures room { self.new.room ≡ self.old.room }
        ensures piece { self.new.piece ≡ self.old.piece }
    {
        self.calls.next()
    }
}
