//! What follows of a slot's format.

ghost use Rattle.std.specs.Prelude.{◌≡◌, ◌≢◌, ◌⊎◌, ◌≤◌, ◌<◌, ◌+◌, ℕ, List, Option, Some, None, length};
ghost use Rattle.std.specs.Prelude.{replicate};
ghost use Rattle.pm_types.specs.declared.shape.Mark.{Mark};
ghost use Rattle.pm_disk.specs.Files.{bytes_of, changed};
ghost use Rattle.pm_disk.specs.Worlds.{slot_at};
ghost use Rattle.pm_disk.specs.declared.mark.TheConstants.{SLOT_LEN};
ghost use Rattle.pm_marks.specs.Slots.{IsMark, slot_of, slot_bytes, bytes_in_slot, mark_at};
ghost use Rattle.pm_disk.specs.Files.{File, content};
ghost use Rattle.pm_marks.specs.MarkWrites.{mark_change, HasFirstSlot, with_first};

/// A valid mark is one that a marker may say, stands in the slot of its number, and decides the slot's
/// bytes; and each mark that stands so is valid.
pub fn a_mark_decides_its_slot()
    ensures fits { (slot : ℕ) (file : List ℕ) (mark : Mark) → mark_at slot file ≡ Some mark → IsMark mark }
    ensures slot { (slot : ℕ) (file : List ℕ) (mark : Mark) → mark_at slot file ≡ Some mark
        → slot ≡ slot_of mark.number }
    ensures bytes { (slot : ℕ) (file : List ℕ) (mark : Mark) → mark_at slot file ≡ Some mark
        → bytes_in_slot slot file ≡ slot_bytes mark }
    ensures read { (file : List ℕ) (mark : Mark) → IsMark mark
        → bytes_in_slot (slot_of mark.number) file ≡ slot_bytes mark
        → mark_at (slot_of mark.number) file ≡ Some mark }
{}

/// Zeros are no slot, and a slot that isn't there in full is none.
pub fn zeros_are_no_slot()
    ensures zeros { (slot : ℕ) (file : List ℕ) → bytes_in_slot slot file ≡ replicate SLOT_LEN 0
        → mark_at slot file ≡ None }
    ensures short { (slot : ℕ) (file : List ℕ) → length file < slot_at slot + SLOT_LEN
        → mark_at slot file ≡ None }
{}

/// A mark that is written is valid in its slot, and the other slot reads as before where it was there in
/// full or not at all.
pub fn a_mark_is_written_alone()
    ensures stands { (file : Option (List ℕ)) (mark : Mark) → IsMark mark
        → mark_at (slot_of mark.number) (bytes_of (changed (mark_change file mark) file)) ≡ Some mark }
    ensures alone { (file : Option (List ℕ)) (mark : Mark) (other : ℕ) → other ≢ slot_of mark.number → other < 2
        → (slot_at other + SLOT_LEN ≤ length (bytes_of file)) ⊎ (length (bytes_of file) ≤ slot_at other)
        → mark_at other (bytes_of (changed (mark_change file mark) file)) ≡ mark_at other (bytes_of file) }
{}

/// A marker file is made to have its first slot: its slots read as before, and then a mark that is written
/// leaves the other slot as it reads, whatever a crash had left of the file.
pub fn a_first_slot_is_made()
    ensures there { (file : File) → HasFirstSlot (with_first file) }
    ensures same { (slot : ℕ) (file : File) →
        mark_at slot (bytes_of (content (with_first file))) ≡ mark_at slot (bytes_of (content file)) }
    ensures alone { (mark : Mark) (file : File) → HasFirstSlot file → (slot : ℕ) → slot ≢ slot_of mark.number
        → mark_at slot (bytes_of (changed (mark_change (content file) mark) (content file)))
        ≡ mark_at slot (bytes_of (content file)) }
{}
