//! Laws on the pages that the log rebuilds. The functions do nothing: their contracts are the laws.

ghost use Rattle.std.specs.Prelude.{ℕ, ◌≡◌, ◌<◌, List, [], ◌∷◌, ◌++◌, Some, IsSome, IsTrue, All};
ghost use Rattle.pm_types.specs.declared.page_id.PageId.{PageId};
ghost use Rattle.pm_types.specs.declared.shape.Shape.{Shape};
ghost use Rattle.pm_types.specs.Shapes.{IsShape};
ghost use Rattle.pm_frame.specs.Frames.{Frame};
ghost use Rattle.pm_records.specs.Logs.{record_in, without_seals};
ghost use Rattle.pm_records.specs.Records.{Record, Restart};
ghost use Rattle.pm_pages.specs.Edits.{EditsPages};
ghost use Rattle.pm_pages.specs.KeptPages.{KeepsPages};
ghost use Rattle.pm_pages.specs.Paged.{Paged};
ghost use Rattle.pm_core.specs.BasePages.{Partitions, laid_over};
ghost use Rattle.pm_core.specs.Calls.{AreRebuilt};
ghost use Rattle.pm_core.specs.States.{AllInGrammar};
ghost use Rattle.pm_ckpt.specs.Writes.{IsHeld, named_of};
ghost use Rattle.pm_engine.specs.PageLogs.{NotedPages, AreNoted, noted_frames, noted_names};
ghost use Rattle.pm_engine.specs.TrackedPages.{TracksPages, SaysNoPage, ChangesWithin, ChangesPart};
ghost use Rattle.pm_engine.specs.TrackedPages.{KeepsPage, ChangesPage};
ghost use Rattle.pm_engine.specs.TrackedPages.{AreAsFiles, HaveFirstPages};

use pm_pages::Pages;

/// Where the pages are as the partitions' files have them, no page is logged: since a checkpoint whose pages
/// are in the files there is no frame, and a RESTART voids the frames before it.
pub fn tracking_begins()
    ensures checkpoint { (shape : Shape) (files pages : Partitions) → AreAsFiles shape files pages
        → TracksPages shape [] files pages [] }
    ensures restart { (shape told : Shape) (frames : List Frame) (frame : Frame) (files pages : Partitions)
        → AllInGrammar frames → record_in frame ≡ Some (Restart told) → AreAsFiles shape files pages
        → TracksPages shape (frames ++ frame ∷ []) files pages [] }
{}

/// The frames go on to rebuild the logged pages: after a record that says nothing of a page, and after those of
/// an operation that noted each change of the pages of a partition. The pages that it changed are logged then.
pub fn tracking_goes_on()
    ensures no_page { (shape : Shape) (frames : List Frame) (frame : Frame) (rec : Record)
        (files pages : Partitions) (logged : List PageId)
        → record_in frame ≡ Some rec → SaysNoPage rec → TracksPages shape frames files pages logged
        → TracksPages shape (frames ++ frame ∷ []) files pages logged }
    ensures operation { (shape : Shape) (frames : List Frame) (part : ℕ) (noted : NotedPages)
        (files old new : Partitions) (logged : List PageId)
        → IsShape shape → part < shape.partitions → AreNoted part noted
        → ChangesWithin shape.page_size (old part) noted.seen
        → ChangesPart part old new noted.seen.pages → TracksPages shape frames files old logged
        → TracksPages shape (frames ++ noted_frames noted logged) files new
        (logged ++ noted_names noted logged) }
{}

/// Calls that noted their edits, as code over any pages says it did, changed each page within its patch: where
/// the content of pages is told, as it is of pages in memory, all of them, and in any case those that were at
/// hand before.
pub fn edits_are_noted<P: Pages>()
    ensures told { (size most : ℕ) (old new : Paged) → P.tells
        → EditsPages P.tells old new (λ j. IsTrue (new.asked j)) most → KeepsPages size old new
        → ChangesWithin size old.pages new }
    ensures at_hand { (size most index : ℕ) (old new : Paged)
        → EditsPages P.tells old new (λ j. IsTrue (new.asked j)) most → KeepsPage size old new index
        → IsTrue (old.known index) → ChangesPage size (old.pages index) (new.pages index) (new.patch index) }
{}

/// SEALs make no difference: frames that are the same but for them rebuild the same pages.
pub fn seals_rebuild_nothing()
    ensures { (shape : Shape) (frames others : List Frame) (files pages : Partitions) (logged : List PageId)
        → AllInGrammar frames → AllInGrammar others → without_seals frames ≡ without_seals others
        → TracksPages shape frames files pages logged → TracksPages shape others files pages logged }
{}

/// What a checkpoint of the logged pages needs: the log rebuilds exactly these, as they are; each is there, and
/// has the page size; and laid over what the files have they give all pages. So where a partition's first page
/// is there whenever it has a page, the base pages have it for each page that the log rebuilds.
pub fn tracked_pages_are_rebuilt()
    ensures rebuilds { (shape : Shape) (frames : List Frame) (files pages : Partitions) (logged : List PageId)
        → (tracks : TracksPages shape frames files pages logged) → (part index : ℕ)
        → tracks.rebuilt part index ≡ named_of pages logged part index }
    ensures only { (shape : Shape) (frames : List Frame) (files pages : Partitions) (logged : List PageId)
        → (tracks : TracksPages shape frames files pages logged) → AreRebuilt logged tracks.rebuilt }
    ensures held { (shape : Shape) (frames : List Frame) (files pages : Partitions) (logged : List PageId)
        → TracksPages shape frames files pages logged → All (IsHeld shape.page_size pages) logged }
    ensures base { (shape : Shape) (frames : List Frame) (files pages : Partitions) (logged : List PageId)
        → (tracks : TracksPages shape frames files pages logged) → (part index : ℕ) → part < shape.partitions
        → laid_over tracks.rebuilt files part index ≡ pages part index }
    ensures has_meta { (shape : Shape) (frames : List Frame) (files pages : Partitions) (logged : List PageId)
        → (tracks : TracksPages shape frames files pages logged) → HaveFirstPages shape pages
        → (part index : ℕ) → IsSome (tracks.rebuilt part index)
        → IsSome (laid_over tracks.rebuilt files part 0) }
{}
