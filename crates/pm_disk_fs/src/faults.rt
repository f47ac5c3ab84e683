//! How often calls failed, and why the first one did.

ghost use Rattle.std.specs.Prelude.{◌≡◌, ◌≤◌, ◌<◌, Ok, Err, None, IsErr, IfOk, OnErr};
ghost use Rattle.pm_types.specs.Counts.{HasRisen};
ghost use Rattle.pm_disk_fs.specs.Faults.{KeepsFirst, JoinsFaults};

use crate::failure::Failure;
use pm_disk::Failed;
use std::marker::Model;

/// The failures of an object's calls.
#[derive(Drop)]
pub struct Faults {
    count: u64,
    first: Option<Failure>,
}

impl Model for Faults {
    ghost use Rattle.std.specs.Prelude.{◌≡◌, is_some, nat_lt};
    ghost use Rattle.pm_disk_fs.specs.Faults.{FaultsView};

    ghost Value = { FaultsView };

    ghost view = { λ faults. record { count = faults.count; first = faults.first } };

    ghost invariant = { λ faults. is_some faults.first ≡ nat_lt 0 faults.count };
}

impl Faults {
    ghost use Rattle.std.specs.Option.{option_copied};
    ghost use Rattle.std.specs.Prelude.{◌↔◌, IsNone, OnOk};

    /// No call has failed.
    pub fn new() -> Faults
        ensures none { result.count ≡ 0 }
        ensures first { result.first ≡ None }
    {
        Faults {
            count: 0,
            first: None,
        }
    }

    /// Why the first call failed of those that did, none where none has.
    pub fn first(&self) -> Option<&Failure>
        ensures first { option_copied result ≡ self.now.first }
        ensures none { IsNone result ↔ (self.now.count ≡ 0) }
    {
        self.first.as_ref()
    }

    /// What a call made, a failure of it counted.
    pub fn counted<T>(&mut self, made: Result<T, Failure>) -> Result<T, Failed>
        ensures later { self.old.count ≤ self.new.count }
        ensures same { OnOk result (self.new ≡ self.old) }
        ensures rose { OnErr result (HasRisen self.old.count self.new.count) }
        ensures first { KeepsFirst (λ failure. made ≡ Err failure) self.old self.new result }
        ensures value { IfOk result (λ v. made ≡ Ok v) }
        ensures error { IsErr result → IsErr made }
    {
        match made {
            Ok(value) => Ok(value),
            Err(failure) => {
                self.count = self.count.saturating_add(1);
                self.first = self.first.or(Some(failure));
                Err(Failed)
            }
        }
    }

    /// Counts the failures of a part that is back.
    pub fn join(&mut self, part: &Faults)
        ensures { JoinsFaults self.old part.now self.new }
    {
        if part.count > 0 {
            self.count = self.count.saturating_add(1);
            self.first = self.first.or(part.first);
        }
    }
}
