//! The lock on the store's folder: one run at a time has it.

ghost use Rattle.std.specs.Prelude.{◌≡◌, true, false, IfOk, IfErr, MatchOption, IsSomeAnd};
ghost use Rattle.pm_disk_fs.specs.Failures.{IsLockFailure};

use crate::calls::SameCalls;
use crate::failure::{Failure, Object, SystemCall, named};
use std::fs::{File, TryLockError};
use std::io;

/// A file or a folder whose lock can be taken.
pub trait Lockable {
    /// Whether somebody else may have its lock. Of a file of the system's nobody can know better.
    ghost may_be_held: { Self → Type 0 } = { λ _. Unit {0} };

    /// Its lock was taken. Nobody can know better of that either.
    ghost locked: { Self → Type 0 } = { λ _. Unit {0} };

    /// Takes its exclusive lock, where nobody else has it, and answers whether it did. It doesn't wait.
    /// The lock is let go when the file is closed, and with the process, however that ends.
    fn take_lock(&self) -> io::Result<bool>
        ensures free { IfOk result (λ taken. taken ≡ false → may_be_held self.now) }
        ensures takes { IfOk result (λ taken. taken ≡ true → locked self.now) };
}

impl Lockable for File {
    fn take_lock(&self) -> io::Result<bool> {
        match self.try_lock() {
            Ok(()) => Ok(true),
            Err(TryLockError::WouldBlock) => Ok(false),
            Err(TryLockError::Error(e)) => Err(e),
        }
    }
}

/// Locks the folder, and gives the file that has the lock, or none where the one at hand has it already.
/// Where another run has it, or another host of this one, that is a failure.
pub fn lock_folder<F: SameCalls + Lockable + Drop>(
    folder: F,
    at_hand: &Option<F>,
) -> Result<Option<F>, Failure>
    ensures locked { IfOk result (λ lock. MatchOption lock
        (IsSomeAnd at_hand.now (λ held. F.same_file held folder)) (λ file. (file ≡ folder) × F.locked file)) }
    ensures failed { IfErr result (IsLockFailure (F.may_be_held folder)) }
{
    if let Some(held) = at_hand {
        if named(SystemCall::Stat, Object::Folder, held.is_same_file(&folder))? {
            return Ok(None);
        }
    }
    if named(SystemCall::Lock, Object::Folder, folder.take_lock())? {
        Ok(Some(folder))
    } else {
        Err(Failure::Locked)
    }
}
