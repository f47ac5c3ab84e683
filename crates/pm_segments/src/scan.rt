//! The log's reader.

ghost use Rattle.std.specs.Prelude.{◌≡◌, ◌≤◌, ◌<◌, ◌+◌, ◌-◌, length, take, drop, [], true, false, None};
ghost use Rattle.std.specs.Prelude.{IfOk, OnOk};
ghost use Rattle.std.specs.Borrow.{sem};
ghost use Rattle.std.specs.Io.BufRead.{Rests};
ghost use Rattle.pm_disk.specs.States.{HasCause, IsUsable};
ghost use Rattle.pm_disk.specs.Moments.{Does};
ghost use Rattle.pm_frame.specs.declared.limits.TheConstants.{SEGMENT_END_MAX as last_end};
ghost use Rattle.pm_frame.specs.declared.limits.TheConstants.{FRAME_MAX as longest};
ghost use Rattle.pm_frame.specs.Views.{frame_in};
ghost use Rattle.pm_frame.specs.Frames.{frame_at};
ghost use Rattle.pm_disk.specs.Files.{ReadsFrom};
ghost use Rattle.pm_disk.specs.Worlds.{segment_in};
ghost use Rattle.pm_segments.specs.Scans.{IsAhead, SeesFrame, StaysAt, StepsTo, StepsOver, bytes_after};
ghost use Rattle.pm_segments.specs.Scans.{frame_ahead, past_seal, Advances, GivesNext};
ghost use Rattle.pm_segments.specs.Scans.{looking_again, forgotten};

use pm_disk::{Failed, LogReader};
use pm_frame::{FRAME_EXTRA, FRAME_MAX, FrameView, HEAD_LEN, SEAL, read_frame};
use pm_types::Place;
use std::alloc::{AllocError, Global};
use std::marker::Model;

// One read asks for at least so many bytes.
const PIECE: usize = 65_536;
// The start of a frame that goes on stands before the piece that follows it.
const BUFFER: usize = PIECE + FRAME_MAX;

/// Reads the log frame after frame from a place on, through a buffer and in one pass: after a SEAL it goes
/// on in the next segment. It asks a segment for bytes at most once per 64 KiB, and once more. It takes its
/// memory when it is made.
#[derive(Drop)]
pub struct Scan {
    place: Place,
    next: Place,
    buffer: Vec<u8>,
    // What was read of the segment from `next` on: buffer[at..end].
    at: usize,
    end: usize,
    is_whole: bool,
    // A SEAL in the last segment ends the log.
    is_over: bool,
    // The frame that was given last, if one was.
    has_found: bool,
    kind: u8,
    payload_at: usize,
    payload_len: usize,
}

impl Model for Scan {
    ghost use Rattle.std.specs.Prelude.{◌-◌, take, drop};
    ghost use Rattle.pm_segments.specs.Scans.{Scanned, IsScan, shown};

    ghost Value = { Scanned };

    ghost view = { λ s. record {
      place = s.place;
      next = s.next;
      ahead = take (s.end - s.at) (drop s.at s.buffer.items);
      is_whole = s.is_whole;
      is_over = s.is_over;
      found = shown s.has_found s.buffer.items s.kind s.payload_at s.payload_len;
    } };

    ghost invariant = { λ s. IsScan s.buffer.items s.at s.end s.payload_at s.payload_len s.kind s.next };
}

impl Scan {
    ghost use Rattle.pm_segments.specs.contracts.scan.Scan.{the_row};

    /// A scan that has read nothing yet, and begins at `from`. `AllocError` comes where there is no
    /// memory for its buffer of 131,051 bytes.
    pub fn new(alloc: Global, from: Place) -> Result<Scan, AllocError>
        requires { from.off ≤ last_end }
        ensures { IfOk result (λ scan. scan ≡ record {
          place = from;
          next = from;
          ahead = [];
          is_whole = false;
          is_over = false;
          found = None;
        }) }
    {
        Ok(Scan {
            place: from,
            next: from,
            buffer: vec![in alloc; 0; BUFFER]?,
            at: 0,
            end: 0,
            is_whole: false,
            is_over: false,
            has_found: false,
            kind: 0,
            payload_at: 0,
            payload_len: 0,
        })
    }

    /// The place of the frame that was given last, or of the log's end.
    pub fn place(&self) -> Place
        ensures { result ≡ self.now.place }
    {
        self.place
    }

    /// The place from which the scan goes on.
    pub fn next_place(&self) -> Place
        ensures { result ≡ self.now.next }
    {
        self.next
    }

    /// Takes note that the log may have grown since its segment was read: whether the segment goes on after what
    /// was read is asked again. What was read stays, where the segment's bytes that were there are as they were.
    pub fn look_again(&mut self)
        ensures { self.new ≡ looking_again self.old }
    {
        // For the proof alone: what holds of every scan (`IsScan`).
        let _ = &self.next;
        self.is_whole = false;
    }

    /// Forgets what was read ahead, which is read again.
    pub fn forget(&mut self)
        ensures { self.new ≡ forgotten self.old }
    {
        // For the proof alone: what holds of every scan (`IsScan`).
        let _ = &self.next;
        self.end = self.at;
        self.is_whole = false;
    }

    /// The next frame of the log, whatever its kind; none exactly at the log's end, where no frame stands, or
    /// after a SEAL in segment 2^64 - 1. After `Failed` the scan is not to be used any more.
    pub fn next<L: LogReader>(&mut self, dev: &mut L) -> Result<Option<FrameView<'_>>, Failed>
        requires usable { IsUsable (L.state dev.old) }
        requires ahead { L.tells → IsAhead self.old (L.history dev.old).world }
        ensures* gives { sem 𝓛 (Rests the_row self.entry (λ left. IfOk result (λ found. GivesNext L.tells
            self.entry.now left (L.history dev.old).world (L.history dev.new).world (frame_in found)))) }
        ensures does { L.tells → Does (L.history dev.old) (L.history dev.new) result (L.history dev.old).world }
        ensures cause { HasCause (L.state dev.old) (L.state dev.new) result }
    {
        self.advance(dev)?;
        Ok(self.found())
    }

    // Goes on by the next frame, if there is one.
    fn advance<L: LogReader>(&mut self, dev: &mut L) -> Result<(), Failed>
        requires usable { IsUsable (L.state dev.old) }
        requires ahead { L.tells → IsAhead self.old (L.history dev.old).world }
        ensures advances { OnOk result (Advances self.old self.new self.new.found) }
        ensures bound { OnOk result (self.new.next.off ≤ last_end) }
        ensures found { L.tells → OnOk result
            (self.new.found ≡ frame_ahead self.old (L.history dev.old).world) }
        ensures ahead { L.tells → OnOk result (IsAhead self.new (L.history dev.new).world) }
        ensures does { L.tells → Does (L.history dev.old) (L.history dev.new) result (L.history dev.old).world }
        ensures cause { HasCause (L.state dev.old) (L.state dev.new) result }
    {
        if self.is_over {
            self.place = self.next;
            self.has_found = false;
            return Ok(());
        }
        self.go_on(dev)
    }

    // Goes on by the frame ahead, if there is one, and from a SEAL to the next segment.
    fn go_on<L: LogReader>(&mut self, dev: &mut L) -> Result<(), Failed>
        requires usable { IsUsable (L.state dev.old) }
        requires going { self.old.is_over ≡ false }
        requires ahead { L.tells → IsAhead self.old (L.history dev.old).world }
        ensures advances { OnOk result (Advances self.old self.new self.new.found) }
        ensures bound { OnOk result (self.new.next.off ≤ last_end) }
        ensures found { L.tells → OnOk result
            (self.new.found ≡ frame_at self.old.next (bytes_after self.old.next (L.history dev.old).world)) }
        ensures ahead { L.tells → OnOk result (IsAhead self.new (L.history dev.new).world) }
        ensures does { L.tells → Does (L.history dev.old) (L.history dev.new) result (L.history dev.old).world }
        ensures cause { HasCause (L.state dev.old) (L.state dev.new) result }
    {
        self.fill(dev)?;
        self.step();
        self.pass_seal();
        Ok(())
    }

    // The frame that was found last.
    fn found(&self) -> Option<FrameView<'_>>
        ensures { frame_in result ≡ self.now.found }
    {
        if !self.has_found {
            return None;
        }
        Some(FrameView {
            kind: self.kind,
            payload: &self.buffer[self.payload_at..self.payload_at + self.payload_len],
            len: self.payload_len + FRAME_EXTRA,
        })
    }

    // Goes on to the next segment, where a SEAL was found.
    fn pass_seal(&mut self)
        ensures passed { self.new ≡ past_seal self.old }
        ensures bound { self.new.next.off ≤ last_end }
    {
        if !self.has_found || self.kind != SEAL {
            return;
        }
        if self.next.seg == u64::MAX {
            self.is_over = true;
            return;
        }
        self.next = Place {
            seg: self.next.seg + 1,
            off: 0,
        };
        // What is left of the segment after its SEAL isn't of the log.
        self.at = self.end;
        self.is_whole = false;
    }

    // Goes on by the frame ahead, if there is one.
    fn step(&mut self)
        requires sees { SeesFrame self.old }
        ensures steps { StepsTo self.old self.new self.new.found }
        ensures is_over { self.new.is_over ≡ self.old.is_over }
        ensures bound { self.new.next.off ≤ last_end }
        ensures found { self.new.found ≡ frame_at self.old.next self.old.ahead }
        ensures ahead { StepsOver self.old self.new self.new.found }
    {
        let ahead = &self.buffer[self.at..self.end];
        self.place = self.next;
        match read_frame(ahead, self.next) {
            None => self.has_found = false,
            Some(view) => {
                self.has_found = true;
                self.kind = view.kind;
                self.payload_len = view.payload.len();
                self.payload_at = self.at + HEAD_LEN;
                self.next.off += view.len as u32;
                self.at += view.len;
            }
        }
    }

    // Reads on where fewer bytes are ahead than a frame may have.
    fn fill<L: LogReader>(&mut self, dev: &mut L) -> Result<(), Failed>
        requires usable { IsUsable (L.state dev.old) }
        requires ahead { L.tells → IsAhead self.old (L.history dev.old).world }
        ensures stays { StaysAt self.old self.new }
        ensures sees { OnOk result (SeesFrame self.new) }
        ensures ahead { L.tells → OnOk result (IsAhead self.new (L.history dev.new).world) }
        ensures does { L.tells → Does (L.history dev.old) (L.history dev.new) result (L.history dev.old).world }
        ensures cause { HasCause (L.state dev.old) (L.state dev.new) result }
    {
        if self.is_whole || self.end - self.at >= FRAME_MAX {
            return Ok(());
        }
        self.read_on(dev)
    }

    // Reads on after what is ahead.
    fn read_on<L: LogReader>(&mut self, dev: &mut L) -> Result<(), Failed>
        requires usable { IsUsable (L.state dev.old) }
        requires ahead { L.tells → IsAhead self.old (L.history dev.old).world }
        requires short { length self.old.ahead < longest }
        ensures stays { StaysAt self.old self.new }
        ensures sees { OnOk result (SeesFrame self.new) }
        ensures ahead { L.tells → OnOk result (IsAhead self.new (L.history dev.new).world) }
        ensures does { L.tells → Does (L.history dev.old) (L.history dev.new) result (L.history dev.old).world }
        ensures cause { HasCause (L.state dev.old) (L.state dev.new) result }
    {
        let kept = move_to_front(&mut self.buffer, self.at, self.end);
        self.has_found = false;
        self.payload_len = 0;
        self.payload_at = 0;
        self.at = 0;
        self.end = kept;
        let from = self.next.off as u64 + kept as u64;
        let count = read_after(dev, &mut self.buffer, kept, self.next.seg, from)?;
        self.end += count;
        self.is_whole = self.end < self.buffer.len();
        Ok(())
    }
}

// Moves a part of the buffer to its front, and says how long it is.
fn move_to_front(buffer: &mut Vec<u8>, at: usize, end: usize) -> usize
    requires ordered { at ≤ end }
    requires within { end ≤ length buffer.old.items }
    ensures len { result ≡ end - at }
    ensures moved { take result buffer.new.items ≡ take (end - at) (drop at buffer.old.items) }
    ensures same_length { length buffer.new.items ≡ length buffer.old.items }
{
    buffer.copy_within(at..end, 0);
    end - at
}

// Reads a segment from an offset on into the buffer after its first `kept` bytes.
fn read_after<L: LogReader>(
    dev: &mut L,
    buffer: &mut Vec<u8>,
    kept: usize,
    seg: u64,
    from: u64,
) -> Result<usize, Failed>
    requires usable { IsUsable (L.state dev.old) }
    requires kept { kept ≤ length buffer.old.items }
    ensures front { take kept buffer.new.items ≡ take kept buffer.old.items }
    ensures same_length { length buffer.new.items ≡ length buffer.old.items }
    ensures bound { IfOk result (λ n. kept + n ≤ length buffer.new.items) }
    ensures reads { L.tells → IfOk result (λ n.
        ReadsFrom (segment_in (L.history dev.old).world seg) from n (drop kept buffer.new.items)) }
    ensures does { L.tells → Does (L.history dev.old) (L.history dev.new) result (L.history dev.old).world }
    ensures cause { HasCause (L.state dev.old) (L.state dev.new) result }
{
    dev.read_log(seg, from, &mut buffer[kept..])
}
