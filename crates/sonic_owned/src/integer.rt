// Integers of 64 bits.
ghost use Rattle.std.specs.Prelude.{◌<◌, ◌^◌, unsigned_abs};
ghost use Rattle.std.proofs.Props.{props};
ghost use Rattle.sonic_owned.specs.Integers.{value};

use std::fmt;
use std::fmt::Write;

// An integer as its type keeps it.
#[derive(Drop, Clone, Copy)]
pub(crate) enum Kept {
    Unsigned(u64),
    Signed(i64),
}

// An integer of 64 bits, with a sign or without one.
#[derive(Drop)]
pub(crate) struct Integer {
    pub(crate) kept: Kept,
    ghost short: { unsigned_abs (value kept) < 2 ^ 64 } by { Prim.hlevel props },
}

impl fmt::Display for Integer {
    ghost use Rattle.std.specs.Prelude.{Some};
    ghost use Rattle.std.specs.Fmt.{signed_decimal};
    ghost use Rattle.sonic_owned.specs.Integers.{value};

    ghost output = { λ integer. Some (signed_decimal (value integer.kept)) };

    fn fmt<W: Write>(&self, f: &mut fmt::Formatter<W>) -> fmt::Result {
        match self.kept {
            Kept::Unsigned(n) => write!(f, "{n}"),
            Kept::Signed(z) => write!(f, "{z}"),
        }
    }
}
