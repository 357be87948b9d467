//! Counts of calls and of faults.
ghost use Rattle.std.specs.Prelude.{◌≡◌, ◌↔◌, ◌<◌, ◌^◌, IsErr, OnOk, OnErr};
ghost use Rattle.sonic_io.specs.Memory.{uncalled, worked, faulted, failed, IsToFail};
ghost use Rattle.sonic_io.specs.Outside.{Rose};

use crate::source::Failed;
use std::marker::Model;

/// How many calls failed. After 2^64 - 1 of them the count stays.
#[derive(Debug, Drop)]
pub struct Faults {
    count: u64,
}

impl Model for Faults {
    ghost use Rattle.std.specs.Prelude.{ℕ};

    ghost Value = { ℕ };

    ghost view = { λ faults. faults.count };
}

impl Faults {
    /// No call has failed yet.
    pub fn new() -> Faults
        ensures { result ≡ 0 }
    {
        Faults { count: 0 }
    }

    /// Counts a fault, and answers what the call that failed does.
    ///
    /// After a first fault the count is 1.
    pub fn fail(&mut self) -> Failed
        ensures { Rose self.old self.new }
    {
        self.count = self.count.saturating_add(1);
        Failed
    }
}

/// The calls of a form that fails in those that it is made to fail in.
///
/// They are numbered from 1. The number of a call and the count of faults stay at 2^64 - 1 once they
/// are there, so that all later calls have that number.
#[derive(Debug, Drop)]
pub struct Calls {
    fails: Vec<u64>,
    number: u64,
    faults: Faults,
}

impl Model for Calls {
    ghost use Rattle.std.specs.Prelude.{◌<◌, ◌^◌};
    ghost use Rattle.sonic_io.specs.Memory.{CallState};

    ghost Value = { CallState };

    ghost view = { λ calls. record { fails = calls.fails.items; number = calls.number; faults = calls.faults } };

    ghost invariant = { λ calls. calls.faults < 2 ^ 64 };
}

impl Calls {
    /// No call was made yet, and those whose numbers are listed are to fail.
    pub fn new(fails: Vec<u64>) -> Calls
        ensures { result ≡ uncalled fails.items }
    {
        Calls {
            fails,
            number: 0,
            faults: Faults::new(),
        }
    }

    /// Counts a call, which fails where its number is listed.
    ///
    /// With 2 as the only number listed the second call fails, and no other.
    pub fn next(&mut self) -> Result<(), Failed>
        ensures fails { IsErr result ↔ IsToFail self.old }
        ensures small { self.old.faults < 2 ^ 64 }
        ensures ok { OnOk result (self.new ≡ worked self.old) }
        ensures err { OnErr result (self.new ≡ failed self.old) }
    {
        self.number = self.number.saturating_add(1);
        if self.fails.contains(&self.number) {
            return Err(self.faults.fail());
        }
        Ok(())
    }

    /// Counts the fault of a call that is counted already, and that fails for another reason.
    pub fn fail(&mut self) -> Failed
        ensures count { self.new ≡ faulted self.old }
        ensures small { self.old.faults < 2 ^ 64 }
    {
        self.faults.fail()
    }
}
