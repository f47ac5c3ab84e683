//! What those who call a worker's pages may rest on.

ghost use Rattle.pm_stripe.specs.Covers.{CoversPages};
ghost use Rattle.pm_stripe.specs.FilePages.{FilePagesPass};
ghost use Rattle.pm_stripe.specs.Readable.{ReadsByParts, KeepsReading};
ghost use Rattle.pm_stripe.specs.Rests.{NewStripesRest, FirstSeatsSettle, StripesRestOnFiles};

use pm_disk::PageReader;

/// Where an operation began with no page in hand, and the calls on pages since then noted what they changed,
/// as code over any pages says it did, the pages in hand are covered as the operation's end asks.
pub fn edits_are_covered<Q, R: PageReader>()
    ensures { CoversPages Q R R.tells R.history R.state }
{}

/// A new stripe may be bound to the seat with which the locks of its frames begin, and to one that knows the
/// same, where its reader may read each page of the worker's.
pub fn a_new_stripe_rests()
    ensures { NewStripesRest }
{}

/// By the seat with which the locks of the frames begin no frame is Due or Done, and each frame's owner last put
/// there what its word says.
pub fn the_first_seat_is_settled()
    ensures { FirstSeatsSettle }
{}

/// A stripe may be told between two rounds that the files have pages. It may be bound where it could be, and what is
/// Clean is as the files have it where it was so of each page of the files.
pub fn a_stripe_rests_on_files()
    ensures { StripesRestOnFiles }
{}

/// Where each page at hand of a worker's reads as what it says, those of each partition do, and the other way round.
pub fn pages_at_hand_are_those_of_partitions()
    ensures { ReadsByParts }
{}

/// From call to call each page at hand of a worker's reads as what it says, of all its partitions, where code over any
/// pages says so of the one partition that is meant.
pub fn pages_at_hand_stay_readable<Q, R: PageReader>()
    ensures { KeepsReading Q R R.tells R.history R.state }
{}

/// A page in hand that was read from its file passes its check, until it is lent to be written.
pub fn pages_from_files_pass<Q, R: PageReader>()
    ensures { FilePagesPass Q R R.tells R.history R.state }
{}
