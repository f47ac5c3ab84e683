//! The pages that were asked for since `ready`, with their patches: for `PlainPages`, which the program doesn't use.

ghost use Rattle.std.specs.Prelude.{◌≡◌, ℕ, ◌+◌, ◌<◌, ◌≤◌, ◌⊎◌, ◌++◌, [], ◌∷◌, true, Option, Some};
ghost use Rattle.std.specs.Prelude.{IsSome, IsSomeAnd, IfSome, IsTrue, length};
ghost use Rattle.std.specs.Option.{option_copied};
ghost use Rattle.std.specs.Vec.{vec_capacity};
ghost use Rattle.pm_types.specs.PageSizes.{IsPageSize};
ghost use Rattle.pm_types.specs.Spans.{AlsoCovers, Covers, IsPatch};
ghost use Rattle.pm_pages.specs.Paged.{JoinsPatch};
ghost use Rattle.pm_pages.specs.Asked.{to_read, entry_of, position_of, entry_or_new, HavePatchesFor};
ghost use Rattle.pm_pages.specs.Asked.{RegistersPage, MakesEntry, NotesEntry, patch_of, is_changed};
ghost use Rattle.pm_pages.specs.Asked.{IsNextChanged, is_below, lower_of};

use pm_types::Patch;

/// A page that was asked for.
#[derive(Debug, Drop)]
pub struct Asked {
    /// The page's index.
    pub index: u32,
    /// Whether it was lent to be written.
    pub is_lent: bool,
    /// What of it changed, as far as that was noted.
    pub patch: Option<Patch>,
}

/// The entry of a page, if it was asked for.
pub fn entry(asked: &[Asked], index: u32) -> Option<&Asked>
    ensures { option_copied result ≡ entry_of asked.now index }
{
    asked.iter().find(|entry| entry.index == index)
}

// Where the entry of a page stands, or after the last.
fn position(asked: &[Asked], index: u32) -> usize
    ensures { result ≡ position_of asked.now index }
{
    'each: for (i, entry) in asked.iter().enumerate() {
        if entry.index == index {
            return i;
        }
    }
    asked.len()
}

/// Notes that a page was asked for, and gives the position of its entry.
pub fn ask(asked: &mut Vec<Asked>, index: u32) -> usize
    requires { IsSome (entry_of asked.old.items index)
        ⊎ (length asked.old.items < vec_capacity asked.old) }
    ensures position { result ≡ position_of asked.new.items index }
    ensures there { result < length asked.new.items }
    ensures entry { entry_of asked.new.items index ≡ Some (entry_or_new asked.old.items index) }
    ensures registers { RegistersPage asked.old.items asked.new.items index }
    ensures capacity { vec_capacity asked.old ≤ vec_capacity asked.new }
{
    let position = position(asked, index);
    if position == asked.len() {
        push(asked, index);
    }
    position
}

// Appends the entry of a page, for which there is room.
fn push(asked: &mut Vec<Asked>, index: u32)
    requires { length asked.old.items < vec_capacity asked.old }
    ensures entry { asked.new.items ≡ asked.old.items ++ to_read index ∷ [] }
    ensures capacity { vec_capacity asked.old ≤ vec_capacity asked.new }
{
    let entry = Asked {
        index,
        is_lent: false,
        patch: None,
    };
    asked.push(entry).unwrap();
}

/// Notes that a page was lent.
pub fn lend(asked: &mut Vec<Asked>, index: u32)
    requires { IsSome (entry_of asked.old.items index)
        ⊎ (length asked.old.items < vec_capacity asked.old) }
    ensures entry { entry_of asked.new.items index
        ≡ Some (record (entry_or_new asked.old.items index) { is_lent = true }) }
    ensures registers { RegistersPage asked.old.items asked.new.items index }
    ensures capacity { vec_capacity asked.old ≤ vec_capacity asked.new }
{
    let position = ask(asked, index);
    asked[position].is_lent = true;
}

/// Notes that a page was made anew, and is covered as a whole.
pub fn make(asked: &mut Vec<Asked>, index: u32, page_size: u32)
    requires room { IsSome (entry_of asked.old.items index)
        ⊎ (length asked.old.items < vec_capacity asked.old) }
    requires size { IsPageSize page_size }
    ensures entry { IsSomeAnd (entry_of asked.new.items index) (MakesEntry page_size) }
    ensures registers { RegistersPage asked.old.items asked.new.items index }
    ensures capacity { vec_capacity asked.old ≤ vec_capacity asked.new }
{
    let position = ask(asked, index);
    let mut whole = Patch::none(page_size);
    whole.add(0, page_size as u16);
    // For the proof alone: what every patch keeps (`IsPatch`).
    let _ranges = whole.len();
    let entry = &mut asked[position];
    entry.is_lent = true;
    entry.patch = Some(whole);
}

/// Joins a patch to that of a page which was asked for.
pub fn note(asked: &mut Vec<Asked>, index: u32, patch: &Patch)
    requires there { IsSome (entry_of asked.old.items index) }
    requires patches { HavePatchesFor patch.now.page_size asked.old.items }
    ensures entry { IsSomeAnd (entry_of asked.new.items index)
        (NotesEntry (entry_or_new asked.old.items index) patch.now) }
    ensures registers { RegistersPage asked.old.items asked.new.items index }
    ensures capacity { vec_capacity asked.old ≤ vec_capacity asked.new }
{
    let position = ask(asked, index);
    let joined = joined(&asked[position].patch, patch);
    asked[position].patch = Some(joined);
}

// The patch that covers what both cover. One that is the whole page stays so.
fn joined(old: &Option<Patch>, patch: &Patch) -> Patch
    requires { IfSome old.now (λ old. old.page_size ≡ patch.now.page_size) }
    ensures joins { JoinsPatch old.now patch.now result }
    ensures fits { IsPatch result }
    ensures whole { IfSome old.now (λ old. IsTrue old.whole → IsTrue result.whole) }
{
    // For the proof alone: what every patch keeps (`IsPatch`).
    let _ranges = patch.len();
    match old {
        None => patch.copy(),
        Some(old) => join(old, patch),
    }
}

// A patch, and what another one covers besides.
fn join(old: &Patch, patch: &Patch) -> Patch
    requires size { old.now.page_size ≡ patch.now.page_size }
    requires fits { IsPatch patch.now }
    ensures joins { AlsoCovers old.now result (Covers patch.now) }
    ensures fits { IsPatch result }
    ensures whole { IsTrue old.now.whole → IsTrue result.whole }
{
    // For the proof alone, as the call on `both` below: what every patch keeps (`IsPatch`).
    let _ranges_before = old.len();
    let mut both = old.copy();
    both.join(patch);
    let _ranges = both.len();
    both
}

/// The lowest index, from `from` on, of a page that was changed.
pub fn next_changed(asked: &[Asked], from: u32) -> Option<u32>
    ensures { IsNextChanged (λ i. patch_of (entry_of asked.now i)) from result }
{
    let mut least = None;
    'each: for i in 0..asked.len() {
        least = lower(asked, from, least, asked[i].index);
    }
    least
}

// The lower one of the least index so far and of this one, where that is from `from` on and its page was changed.
fn lower(asked: &[Asked], from: u32, least: Option<u32>, index: u32) -> Option<u32>
    ensures { result ≡ lower_of (is_changed (patch_of (entry_of asked.now index))) from least index }
{
    if is_changed(asked, index) && from <= index && is_below(index, least) {
        Some(index)
    } else {
        least
    }
}

// Whether an index is below the least one so far, if there is one.
fn is_below(index: u32, least: Option<u32>) -> bool
    ensures { result ≡ is_below index least }
{
    match least {
        Some(least) => index < least,
        None => true,
    }
}

// Whether a page was changed: its patch covers a byte.
fn is_changed(asked: &[Asked], index: u32) -> bool
    ensures { result ≡ is_changed (patch_of (entry_of asked.now index)) }
{
    match entry(asked, index) {
        Some(entry) => has_bytes(&entry.patch),
        None => false,
    }
}

// Whether a patch was noted that covers a byte.
fn has_bytes(patch: &Option<Patch>) -> bool
    ensures { result ≡ is_changed patch.now }
{
    match patch {
        Some(patch) => patch.is_whole() || patch.len() > 0,
        None => false,
    }
}
