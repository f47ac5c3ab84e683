//! The one answer of the outside other than success.

ghost use Rattle.std.specs.Prelude.{◌≡◌};
ghost use Rattle.pm_disk.specs.Faults.{failed_call, failed_page};

use pm_types::{PageFault, StoreFault};
use thiserror::Error;

/// A call on the outside failed. It may have done its work in part, as the call says.
#[derive(Clone, Copy, Debug, PartialEq, Eq, Error)]
#[error("a disk or console call failed")]
pub struct Failed;

impl From<Failed> for StoreFault {
    ghost from_gives = { λ _ e. e ≡ failed_call };

    fn from(_e: Failed) -> StoreFault {
        StoreFault::Failed
    }
}

impl From<Failed> for PageFault {
    ghost from_gives = { λ _ e. e ≡ failed_page };

    fn from(_e: Failed) -> PageFault {
        PageFault::Failed
    }
}
