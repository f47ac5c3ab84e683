//! What a written page and a written slot leave of their file.

ghost use Rattle.std.specs.Prelude.{◌≡◌, ◌≢◌, ◌≤◌, ◌<◌, ◌+◌, ◌*◌, ℕ, List, Option, Some, length, slice_get};
ghost use Rattle.pm_disk.specs.Files.{bytes_of, changed, missing, gapped};
ghost use Rattle.pm_disk.specs.Images.{KeepsRange, Puts};
ghost use Rattle.pm_disk.specs.Worlds.{slot_at, slot_change};
ghost use Rattle.pm_disk.specs.declared.mark.TheConstants.{SLOT_LEN};

/// A page that is written stands in its file, what is there of other pages stays, and the file gets no
/// shorter.
pub fn a_page_is_written_alone()
    ensures stands { (file : Option (List ℕ)) (gap bytes : List ℕ) (index : ℕ)
        → length gap ≡ missing (index * length bytes) file
        → Puts file (gapped file (index * length bytes) gap bytes) (index * length bytes) bytes }
    ensures alone { (file : Option (List ℕ)) (gap bytes : List ℕ) (index other : ℕ)
        → length gap ≡ missing (index * length bytes) file → other ≢ index
        → KeepsRange file (gapped file (index * length bytes) gap bytes)
        (other * length bytes) (other * length bytes + length bytes) }
{}

/// A slot that is written stands in its file, what is there of the other slot stays, the file gets no
/// shorter, and a gap before the slot has zeros.
pub fn a_slot_is_written_alone()
    ensures stands { (file : Option (List ℕ)) (bytes : List ℕ) (slot : ℕ)
        → Puts file (slot_change file slot bytes) (slot_at slot) bytes }
    ensures alone { (file : Option (List ℕ)) (bytes : List ℕ) (slot other : ℕ)
        → length bytes ≡ SLOT_LEN → other ≢ slot
        → KeepsRange file (slot_change file slot bytes) (slot_at other) (slot_at other + SLOT_LEN) }
    ensures zeros { (file : Option (List ℕ)) (bytes : List ℕ) (slot i : ℕ)
        → length (bytes_of file) ≤ i → i < slot_at slot
        → slice_get (bytes_of (changed (slot_change file slot bytes) file)) i ≡ Some 0 }
{}
