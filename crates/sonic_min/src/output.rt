// A text that is made piece by piece, in room for so many bytes. Nothing fails but memory.
ghost use Rattle.std.specs.Prelude.{◌≡◌, ◌+◌, ◌≤◌, [], ◌∷◌, length, replicate, take, ◌++◌, ◌<◌, IfErr, IfOk, OnOk};
ghost use Rattle.sonic_min.specs.Internal.Outputs.{Adds, Stores};

use sonic_parser::Fault;
use std::simd::prelude::*;

// How many bytes of the room may be overwritten past what is written.
pub(crate) const SLACK: usize = 32;

// A text that is made: how many bytes it has so far, and room that begins with them.
#[derive(Drop)]
pub(crate) struct Output {
    // The room for the bytes.
    pub(crate) bytes: Vec<u8>,
    // How many bytes there are.
    pub(crate) count: usize,
}

// The sum of two lengths, which is no more than a length can be.
#[inline(always)]
pub(crate) fn sum(count: usize, more: usize) -> Result<usize, Fault>
    ensures ok { IfOk result (λ sum. sum ≡ count + more) }
    ensures memory { IfErr result (λ fault. fault ≡ Fault.OutOfMemory) }
{
    match count.checked_add(more) {
        Some(sum) => Ok(sum),
        None => Err(Fault::OutOfMemory),
    }
}

// Stores a byte.
#[inline(always)]
fn store_byte(room: &mut [u8], at: usize, byte: u8)
    requires { at < length room.old }
    ensures { Stores room.old at (byte ∷ []) room.new }
{
    room[at] = byte;
}

// Stores so many bytes of which these are the first. It may overwrite 32 bytes.
#[inline(always)]
fn store_span(room: &mut [u8], at: usize, bytes: &[u8], count: usize)
    requires count { count ≤ length bytes.now }
    requires room { at + count + 32 ≤ length room.old }
    ensures { Stores room.old at (take count bytes.now) room.new }
{
    if count <= 32 && bytes.len() >= 32 {
        u8x32::from_slice(bytes).copy_to_slice(&mut room[at..]);
    } else {
        room[at..at + count].copy_from_slice(&bytes[..count]);
    }
}

// Stores so many blanks. It may overwrite 32 bytes.
#[inline(always)]
fn store_blanks(room: &mut [u8], at: usize, count: usize)
    requires { at + count + 32 ≤ length room.old }
    ensures { Stores room.old at (replicate count 32) room.new }
{
    if count <= 32 {
        u8x32::splat(b' ').copy_to_slice(&mut room[at..]);
    } else {
        room[at..at + count].fill(b' ');
    }
}

impl Output {
    // How many bytes there are after so many more, for which there is room.
    #[inline(always)]
    fn after(&self, more: usize) -> Result<usize, Fault>
        ensures ok { IfOk result (λ end. end ≡ self.now.count + more) }
        ensures room { IfOk result (λ end. end + 32 ≤ length self.now.bytes.items) }
        ensures memory { IfErr result (λ fault. fault ≡ Fault.OutOfMemory) }
    {
        let end = sum(self.count, more)?;
        let room = self.bytes.len();
        if room < SLACK || room - SLACK < end {
            return Err(Fault::OutOfMemory);
        }
        Ok(end)
    }

    // Adds so many bytes of which these are the first.
    #[inline(always)]
    pub(crate) fn span(&mut self, bytes: &[u8], count: usize) -> Result<(), Fault>
        requires { count ≤ length bytes.now }
        ensures ok { OnOk result (Adds self.old (take count bytes.now) self.new) }
        ensures memory { IfErr result (λ fault. fault ≡ Fault.OutOfMemory) }
    {
        let end = self.after(count)?;
        store_span(self.bytes.as_mut_slice(), self.count, bytes, count);
        self.count = end;
        Ok(())
    }

    // Adds two bytes.
    #[inline(always)]
    pub(crate) fn pair(&mut self, first: u8, second: u8) -> Result<(), Fault>
        ensures ok { OnOk result (Adds self.old (first ∷ second ∷ []) self.new) }
        ensures memory { IfErr result (λ fault. fault ≡ Fault.OutOfMemory) }
    {
        let end = self.after(2)?;
        let room = self.bytes.as_mut_slice();
        store_byte(room, self.count, first);
        store_byte(room, self.count + 1, second);
        self.count = end;
        Ok(())
    }

    // Ends a line with a byte, and begins one with so many blanks.
    #[inline(always)]
    pub(crate) fn byte_line(&mut self, byte: u8, blanks: usize) -> Result<(), Fault>
        ensures ok { OnOk result (Adds self.old (byte ∷ 10 ∷ replicate blanks 32) self.new) }
        ensures memory { IfErr result (λ fault. fault ≡ Fault.OutOfMemory) }
    {
        let end = self.after(sum(blanks, 2)?)?;
        let room = self.bytes.as_mut_slice();
        store_byte(room, self.count, byte);
        store_byte(room, self.count + 1, b'\n');
        store_blanks(room, self.count + 2, blanks);
        self.count = end;
        Ok(())
    }

    // Begins a line with so many blanks and a byte.
    #[inline(always)]
    pub(crate) fn line_byte(&mut self, blanks: usize, byte: u8) -> Result<(), Fault>
        ensures ok { OnOk result (Adds self.old (10 ∷ replicate blanks 32 ++ byte ∷ []) self.new) }
        ensures memory { IfErr result (λ fault. fault ≡ Fault.OutOfMemory) }
    {
        let end = self.after(sum(blanks, 2)?)?;
        let room = self.bytes.as_mut_slice();
        store_byte(room, self.count, b'\n');
        store_blanks(room, self.count + 1, blanks);
        store_byte(room, self.count + 1 + blanks, byte);
        self.count = end;
        Ok(())
    }
}
