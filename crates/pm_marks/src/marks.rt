//! The markers of a store, read and written.

ghost use Rattle.std.specs.Prelude.{◌≡◌, ◌<◌, None, false, IfOk};
ghost use Rattle.pm_disk.specs.declared.mark.MarkFile.TheVariants as marker;
ghost use Rattle.pm_disk.specs.Files.{bytes_of};
ghost use Rattle.pm_disk.specs.States.{HasCause, IsUsable};
ghost use Rattle.pm_disk.specs.Worlds.{marks_in};
ghost use Rattle.pm_disk.specs.Moments.{Does};
ghost use Rattle.pm_marks.specs.Slots.{IsMark, slot_of, mark_at};
ghost use Rattle.pm_marks.specs.InForce.{higher, start_in, has_slot, checkpoint_in, marks_of};
ghost use Rattle.pm_marks.specs.MarkWrites.{WritesFirst, WritesMark};

use crate::slot::{mark_in, slot_bytes};
use pm_disk::{Failed, Host, MarkFile, SLOT_LEN};
use pm_types::Mark;

/// The checkpoint in force.
#[derive(Clone, Copy, Debug, PartialEq, Eq)]
pub struct Marks {
    /// Its start marker, none where no slot of the file of start markers is valid.
    pub start: Option<Mark>,
    /// Whether it has its end marker.
    pub ended: bool,
}

/// Reads the checkpoint in force: the start marker of the highest number, and whether the slot of its
/// number in the file of end markers has the same bytes.
pub fn read_marks<H: Host>(host: &mut H) -> Result<Marks, Failed>
    requires usable { IsUsable (H.Device.state host.old) }
    ensures in_force { H.Device.tells → IfOk result (λ marks. marks ≡ marks_of (checkpoint_in
        (bytes_of (marks_in (H.Device.history host.old).world marker.Start))
        (bytes_of (marks_in (H.Device.history host.old).world marker.End)))) }
    ensures no_end_alone { IfOk result (λ marks. marks.start ≡ None → marks.ended ≡ false) }
    ensures unchanged { H.Device.tells →
        Does (H.Device.history host.old) (H.Device.history host.new) result (H.Device.history host.old).world }
    ensures cause { HasCause (H.Device.state host.old) (H.Device.state host.new) result }
{
    match read_start(host)? {
        Some(mark) => {
            let ended = has_end(host, &mark)?;
            Ok(Marks {
                start: Some(mark),
                ended,
            })
        }
        None => Ok(Marks {
            start: None,
            ended: false,
        }),
    }
}

/// Writes a checkpoint's start marker and forces its file. What is there in full of the other slot stays.
/// Where the file ends before the end of its first slot, zeros are written to that slot first: a part of
/// a slot that a crash left isn't filled up. After `Failed` the zeros and the marker may be written or not,
/// and forced or not.
pub fn write_start<H: Host>(host: &mut H, mark: &Mark) -> Result<(), Failed>
    requires usable { IsUsable (H.Device.state host.old) }
    requires mark { IsMark mark.now }
    ensures writes { H.Device.tells
        → WritesMark (H.Device.history host.old) (H.Device.history host.new) result marker.Start mark.now }
    ensures cause { HasCause (H.Device.state host.old) (H.Device.state host.new) result }
{
    write_mark(host, MarkFile::Start, mark)
}

/// Writes a checkpoint's end marker, which has the bytes of its start marker, and forces its file, as
/// `write_start` does.
pub fn write_end<H: Host>(host: &mut H, mark: &Mark) -> Result<(), Failed>
    requires usable { IsUsable (H.Device.state host.old) }
    requires mark { IsMark mark.now }
    ensures writes { H.Device.tells
        → WritesMark (H.Device.history host.old) (H.Device.history host.new) result marker.End mark.now }
    ensures cause { HasCause (H.Device.state host.old) (H.Device.state host.new) result }
{
    write_mark(host, MarkFile::End, mark)
}

// The start marker in force.
fn read_start<H: Host>(host: &mut H) -> Result<Option<Mark>, Failed>
    requires usable { IsUsable (H.Device.state host.old) }
    ensures found { H.Device.tells → IfOk result (λ found. found ≡ start_in
        (bytes_of (marks_in (H.Device.history host.old).world marker.Start))) }
    ensures unchanged { H.Device.tells →
        Does (H.Device.history host.old) (H.Device.history host.new) result (H.Device.history host.old).world }
    ensures cause { HasCause (H.Device.state host.old) (H.Device.state host.new) result }
{
    let zero = read_slot(host, 0)?;
    let one = read_slot(host, 1)?;
    Ok(higher(zero, one))
}

// The mark in a slot of the file of start markers.
fn read_slot<H: Host>(host: &mut H, slot: u8) -> Result<Option<Mark>, Failed>
    requires usable { IsUsable (H.Device.state host.old) }
    requires slot { slot < 2 }
    ensures found { H.Device.tells → IfOk result (λ found. found ≡ mark_at slot
        (bytes_of (marks_in (H.Device.history host.old).world marker.Start))) }
    ensures unchanged { H.Device.tells →
        Does (H.Device.history host.old) (H.Device.history host.new) result (H.Device.history host.old).world }
    ensures cause { HasCause (H.Device.state host.old) (H.Device.state host.new) result }
{
    let mut bytes = [0; SLOT_LEN];
    if host.read_mark(MarkFile::Start, slot, &mut bytes)? {
        Ok(mark_in(slot, &bytes))
    } else {
        Ok(None)
    }
}

// Whether a start marker has its end marker.
fn has_end<H: Host>(host: &mut H, mark: &Mark) -> Result<bool, Failed>
    requires usable { IsUsable (H.Device.state host.old) }
    ensures found { H.Device.tells → IfOk result (λ found. found ≡ has_slot
        (bytes_of (marks_in (H.Device.history host.old).world marker.End)) mark.now) }
    ensures unchanged { H.Device.tells →
        Does (H.Device.history host.old) (H.Device.history host.new) result (H.Device.history host.old).world }
    ensures cause { HasCause (H.Device.state host.old) (H.Device.state host.new) result }
{
    let mut bytes = [0; SLOT_LEN];
    let whole = host.read_mark(MarkFile::End, slot_of(mark.number), &mut bytes)?;
    Ok(whole && bytes == slot_bytes(mark))
}

// Makes the file have its first slot, writes a mark to its slot and forces the file.
fn write_mark<H: Host>(host: &mut H, file: MarkFile, mark: &Mark) -> Result<(), Failed>
    requires usable { IsUsable (H.Device.state host.old) }
    ensures writes { H.Device.tells
        → WritesMark (H.Device.history host.old) (H.Device.history host.new) result file mark.now }
    ensures cause { HasCause (H.Device.state host.old) (H.Device.state host.new) result }
{
    write_first(host, file)?;
    host.write_mark(file, slot_of(mark.number), &slot_bytes(mark))?;
    host.force_mark(file)
}

// Writes zeros to the first slot of a file that ends before that slot does.
fn write_first<H: Host>(host: &mut H, file: MarkFile) -> Result<(), Failed>
    requires usable { IsUsable (H.Device.state host.old) }
    ensures writes { H.Device.tells
        → WritesFirst (H.Device.history host.old) (H.Device.history host.new) result file }
    ensures cause { HasCause (H.Device.state host.old) (H.Device.state host.new) result }
{
    let mut bytes = [0; SLOT_LEN];
    if host.read_mark(file, 0, &mut bytes)? {
        return Ok(());
    }
    host.write_mark(file, 0, &[0; SLOT_LEN])
}

// The slot of the checkpoint of this number.
fn slot_of(number: u64) -> u8
    ensures slot { result ≡ slot_of number }
    ensures small { result < 2 }
{
    (number % 2) as u8
}

// Of two marks the one of the higher number.
fn higher(zero: Option<Mark>, one: Option<Mark>) -> Option<Mark>
    ensures { result ≡ higher zero one }
{
    match (zero, one) {
        (Some(mark), Some(other)) => {
            if mark.number < other.number {
                Some(other)
            } else {
                Some(mark)
            }
        }
        (Some(mark), None) => Some(mark),
        (None, other) => other,
    }
}
