//! Laws on what an operation over page frames hands to the log writer. The functions do nothing: their contracts are
//! the laws.

ghost use Rattle.std.specs.Prelude.{ℕ, ◌≡◌, ◌≤◌, ◌^◌, ◌++◌, List, Option, Some, None, length, map};
ghost use Rattle.pm_types.specs.declared.limits.TheConstants.{OP_PAGES};
ghost use Rattle.pm_types.specs.declared.page_id.PageId.{PageId};
ghost use Rattle.pm_frame.specs.Frames.{Frame};
ghost use Rattle.pm_records.specs.Logs.{record_frame};
ghost use Rattle.pm_records.specs.Operations.{Operation};
ghost use Rattle.pm_records.specs.Records.{Record};
ghost use Rattle.pm_stripe.specs.ChangedPages.{ChangedPage, page_record, frame_for};
ghost use Rattle.pm_stripe.specs.Kept.{Kept};
ghost use Rattle.pm_stripe.specs.Listings.{ListsChanged, IsOperationOf, GrowsByOperation, after_logical};
ghost use Rattle.pm_engine.specs.FramedEdits.{NotesEditsInFrames};
ghost use Rattle.pm_engine.specs.HandedPages.{OperatesOn, framed_pages, first_names};
ghost use Rattle.pm_engine.specs.OutboxLogs.{SpellOperationRecords};
ghost use Rattle.pm_engine.specs.PageLogs.{AreNoted, noted_frames, noted_names};
ghost use Rattle.pm_engine.specs.RunningSteps.{operation_frames};
ghost use Rattle.pm_engine.specs.RunningStores.{StoreState};

use pm_disk::PageReader;

/// The pages of a worker that operates on a partition are noted ones, with any number above the indices of those
/// that it changed. The records of these, by rising name, are the frames that a store which runs appends of them,
/// and the names of those that the log hasn't had are the names that it then logs. There are at most as many as
/// one operation may ask for.
pub fn pages_in_hand_are_noted()
    ensures noted { (file : PageId → Option (List ℕ)) (faults part : ℕ) (logged : List PageId) (k : Kept)
        → OperatesOn part logged k → AreNoted part (framed_pages file faults part k (2 ^ 32)) }
    ensures frames { (file : PageId → Option (List ℕ)) (faults part count : ℕ) (logged : List PageId) (k : Kept)
        (listed : List ChangedPage) → OperatesOn part logged k
        → AreNoted part (framed_pages file faults part k count) → ListsChanged k.held listed
        → map (λ p. frame_for (page_record p)) listed
        ≡ noted_frames (framed_pages file faults part k count) logged }
    ensures names { (file : PageId → Option (List ℕ)) (faults part count : ℕ) (logged : List PageId) (k : Kept)
        (listed : List ChangedPage) → OperatesOn part logged k
        → AreNoted part (framed_pages file faults part k count) → ListsChanged k.held listed
        → first_names listed ≡ noted_names (framed_pages file faults part k count) logged }
    ensures few { (file : PageId → Option (List ℕ)) (faults part count : ℕ) (logged : List PageId) (k : Kept)
        → OperatesOn part logged k
        → length (noted_frames (framed_pages file faults part k count) logged) ≤ OP_PAGES }
{}

/// Where an operation began with no page in hand, and calls on pages since then noted what they changed, as code
/// over any pages says it did, each page of the partition changed within its patch, where the files' content is
/// told.
pub fn edits_in_frames_are_noted<Q, R: PageReader>()
    ensures { NotesEditsInFrames Q R R.tells R.history R.state }
{}

/// What the end of an operation hands over, record by record, is what a store that runs appends of it: with its
/// logical record all that the operation appends, and without one, as where it is applied again at a restart, the
/// records of its pages alone. Bytes that are operations, as those of an outbox, grow by these records.
pub fn an_operation_hands_over_its_frames()
    ensures done { (file : PageId → Option (List ℕ)) (faults part count line : ℕ) (store : StoreState) (k : Kept)
        (logical : Record) (operation : Operation) → OperatesOn part store.logged k
        → AreNoted part (framed_pages file faults part k count)
        → IsOperationOf line (Some logical) k.held operation → operation.records
        ≡ operation_frames store (framed_pages file faults part k count) (record_frame logical) }
    ensures replayed { (file : PageId → Option (List ℕ)) (faults part count line : ℕ) (store : StoreState)
        (k : Kept) (operation : Operation) → OperatesOn part store.logged k
        → AreNoted part (framed_pages file faults part k count)
        → IsOperationOf line None k.held operation
        → operation.records ≡ noted_frames (framed_pages file faults part k count) store.logged }
    ensures grows { (file : PageId → Option (List ℕ)) (faults part count line : ℕ) (logged : List PageId)
        (k : Kept) (logical : Option Record) (old new : List ℕ) (frames : List Frame)
        → OperatesOn part logged k → AreNoted part (framed_pages file faults part k count)
        → SpellOperationRecords old frames → GrowsByOperation line logical k.held old new
        → SpellOperationRecords new (frames
        ++ after_logical logical (noted_frames (framed_pages file faults part k count) logged)) }
{}
