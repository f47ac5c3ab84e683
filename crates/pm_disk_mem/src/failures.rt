//! Which calls fail.

ghost use Rattle.std.specs.Prelude.{◌≡◌, ◌≤◌, ◌+◌, ◌-◌, ◌^◌, min, is_err, Ok, IfOk, IsErr};
ghost use Rattle.pm_disk_mem.specs.Plans.{is_due, is_stopped, HasPlan, KeepsPlan, IsFaultCount};
ghost use Rattle.pm_disk_mem.specs.Plans.{CountsOn, IsJoined};

use pm_disk::Failed;
use std::alloc::{AllocError, Global};

/// Which calls are to fail, how many were made, and how many failed.
#[derive(Drop)]
pub struct Failures {
    /// The numbers of the calls that fail, counted from 0.
    pub failing: Vec<u64>,
    /// From this number on each call fails.
    pub stop: Option<u64>,
    /// How many calls were made.
    pub calls: u64,
    /// How many failed.
    pub count: u64,
}

impl Failures {
    /// Before the first call.
    pub fn new(alloc: Global, failing: &[u64], stop: Option<u64>) -> Result<Failures, AllocError>
        ensures plan { IfOk result (λ failures. HasPlan failures failing.now stop) }
        ensures calls { IfOk result (λ failures. failures.calls ≡ 0) }
        ensures count { IfOk result (λ failures. failures.count ≡ 0) }
    {
        Ok(Failures {
            failing: Vec::from_slice(alloc, failing)?,
            stop,
            calls: 0,
            count: 0,
        })
    }

    /// Counts a call, and fails where it is one that is to fail.
    pub fn begin(&mut self) -> Result<(), Failed>
        ensures due { is_err result ≡ is_due self.old }
        ensures counted { self.new.calls ≡ min (self.old.calls + 1) (2 ^ 64 - 1) }
        ensures plan { KeepsPlan self.old self.new }
        ensures faults { IsFaultCount self.old.count self.new.count result }
    {
        let number = self.calls;
        self.calls = number.saturating_add(1);
        if self.failing.contains(&number) || self.is_stopped(number) {
            return Err(self.fail());
        }
        Ok(())
    }

    /// What a call made, out of memory counted as a failure.
    pub fn counted<T>(&mut self, made: Result<T, AllocError>) -> Result<T, Failed>
        ensures value { IfOk result (λ value. made ≡ Ok value) }
        ensures fails { IsErr result → IsErr made }
        ensures calls { self.new.calls ≡ self.old.calls }
        ensures plan { KeepsPlan self.old self.new }
        ensures faults { IsFaultCount self.old.count self.new.count result }
    {
        match made {
            Ok(value) => Ok(value),
            Err(_) => Err(self.fail()),
        }
    }

    /// What a part begins with: it counts its calls on from these.
    pub fn lent(&self, alloc: Global) -> Result<Failures, AllocError>
        ensures { IfOk result (λ part. CountsOn self.now part) }
    {
        Ok(Failures {
            failing: Vec::from_slice(alloc, &self.failing)?,
            stop: self.stop,
            calls: self.calls,
            count: 0,
        })
    }

    /// Counts on after a part that is back.
    pub fn join(&mut self, part: &Failures)
        ensures { IsJoined self.old part.now self.new }
    {
        self.calls = self.calls.max(part.calls);
        if part.count > 0 {
            self.count = self.count.saturating_add(1);
        }
    }

    /// Counts a failure.
    pub fn fail(&mut self) -> Failed
        ensures later { self.old.count ≤ self.new.count }
        ensures rose { self.new.count ≡ min (self.old.count + 1) (2 ^ 64 - 1) }
        ensures calls { self.new.calls ≡ self.old.calls }
        ensures plan { KeepsPlan self.old self.new }
    {
        self.count = self.count.saturating_add(1);
        Failed
    }

    // Whether the call of this number comes after the stop.
    fn is_stopped(&self, number: u64) -> bool
        ensures { result ≡ is_stopped self.now.stop number }
    {
        match self.stop {
            Some(stop) => stop <= number,
            None => false,
        }
    }
}
