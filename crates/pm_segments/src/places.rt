//! Places of the log, as what a walk over it goes by.

ghost use Rattle.std.specs.Prelude.{◌≡◌};

use pm_types::Place;

/// The segment of a place. Its number is below 2^64, so that a walk from segment to segment ends.
pub fn segment_of(at: Place) -> u64
    ensures { result ≡ at.seg }
{
    at.seg
}
