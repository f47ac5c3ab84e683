//! The log's writer.

ghost use Rattle.std.specs.Prelude.{◌≡◌, ◌⊎◌, ◌≤◌, ◌<◌, ◌+◌, ◌++◌, ◌↔◌, ℕ, [], length, true, IsTrue, IfOk};
ghost use Rattle.std.specs.Prelude.{OnOk, OnErr};
ghost use Rattle.pm_disk.specs.States.{HasCause, IsUsable};
ghost use Rattle.pm_frame.specs.declared.limits.TheConstants.{PAYLOAD_MAX as longest};
ghost use Rattle.pm_frame.specs.declared.limits.TheConstants.{SEGMENT_END_MAX as last_end};
ghost use Rattle.pm_frame.specs.declared.kinds.TheConstants.{LOGICAL, SEAL};
ghost use Rattle.pm_frame.specs.Frames.{IsFrame, frame_len};
ghost use Rattle.pm_types.specs.declared.limits.TheConstants.{SEGMENT_BYTES_MIN as least_size};
ghost use Rattle.pm_types.specs.declared.limits.TheConstants.{SEGMENT_BYTES_MAX as most_size};
ghost use Rattle.pm_disk.specs.Files.{bytes_of};
ghost use Rattle.pm_disk.specs.Worlds.{segment_in, log_forced};
ghost use Rattle.pm_disk.specs.Moments.{Does};
ghost use Rattle.pm_records.specs.LogSteps.{written, cut_steps, DoesSteps, next_segment, next_begin};
ghost use Rattle.pm_segments.specs.Appends.{seal_len, seal_steps, enter_steps, begin_steps, roll_steps};
ghost use Rattle.pm_segments.specs.Appends.{rolled, room_steps, roomy, append_steps, grown, steps_of};
ghost use Rattle.pm_segments.specs.Appends.{tried_log, failed_append, Reaches};
ghost use Rattle.pm_segments.specs.Ends.{fresh_log, HasRoom, EndsThere, moved};
ghost use Rattle.pm_segments.specs.Drops.{AreDropped, drop_before_steps, kept_from};

use crate::dropping::drop_range;
use pm_disk::{Failed, Host, LogFile};
use pm_frame::{FRAME_END_MAX, FRAME_EXTRA, FRAME_MAX, SEAL, write_frame};
use pm_types::Place;
use std::marker::Model;

/// The log of a store, where it ends. Each record is built in memory that the log keeps, so that no
/// call takes any.
#[derive(Drop)]
pub struct Log {
    first: u64,
    end: Place,
    segment_bytes: u32,
    tried: bool,
    total: u64,
    frame: [u8; FRAME_MAX],
}

impl Model for Log {
    ghost use Rattle.pm_segments.specs.Ends.{LogEnd, IsLogEnd};

    ghost Value = { LogEnd };

    ghost view = { λ log. record {
      first = log.first;
      end = log.end;
      segment_bytes = log.segment_bytes;
      tried = log.tried;
      total = log.total;
    } };

    ghost invariant = { λ log. IsLogEnd (record {
      first = log.first;
      end = log.end;
      segment_bytes = log.segment_bytes;
      tried = log.tried;
      total = log.total;
    }) };
}

impl Log {
    /// Cuts the last segment at `end` and forces it, and gives the log that ends there. Its segments
    /// from `first` on are kept, the last one among them. A record is put into a segment only if the segment
    /// has at most `segment_bytes` bytes then, with a SEAL after the record.
    ///
    /// After `Failed` the segment may be cut or not, and what is before `end` is as it was.
    pub fn cut_tail<L: LogFile>(
        dev: &mut L,
        first: u64,
        end: Place,
        segment_bytes: u32,
    ) -> Result<Log, Failed>
        requires usable { IsUsable (L.state dev.old) }
        requires end { end.off ≤ last_end }
        requires kept { first ≤ end.seg }
        requires size_from { least_size ≤ segment_bytes }
        requires size_to { segment_bytes ≤ most_size }
        requires long { L.tells →
            end.off ≤ length (bytes_of (segment_in (L.history dev.old).world end.seg)) }
        ensures log { IfOk result (λ log. log ≡ fresh_log first end segment_bytes) }
        ensures ends { L.tells → IfOk result (λ log. EndsThere log (L.history dev.new).world) }
        ensures steps { L.tells →
            DoesSteps (L.history dev.old) (L.history dev.new) result cut_steps end }
        ensures cause { HasCause (L.state dev.old) (L.state dev.new) result }
    {
        dev.cut_log(end.seg, end.off as u64)?;
        dev.force_log(end.seg)?;
        Ok(Log {
            first,
            end,
            segment_bytes,
            tried: false,
            total: 0,
            frame: [0; FRAME_MAX],
        })
    }

    /// Where the log ends.
    pub fn end(&self) -> Place
        ensures { result ≡ self.now.end }
    {
        self.end
    }

    /// Whether the last `append` tried to write its own frame. Where it did and failed, the frame
    /// may be in the log or not; where it didn't, the frame isn't.
    pub fn tried(&self) -> bool
        ensures { result ≡ self.now.tried }
    {
        self.tried
    }

    /// How many bytes the frames have that were appended since `cut_tail`, SEALs among them; those of
    /// an append that failed don't count. The count stands still at 2^64 - 1.
    pub fn appended(&self) -> u64
        ensures { result ≡ self.now.total }
    {
        self.total
    }

    /// Whether a record with so many bytes of payload fits into the segment after the log's end, with
    /// room for a SEAL after it.
    pub fn has_room(&self, payload_len: usize) -> bool
        requires { payload_len ≤ longest }
        ensures { IsTrue result ↔ HasRoom self.now payload_len }
    {
        self.end.off as usize + payload_len + 2 * FRAME_EXTRA <= self.segment_bytes as usize
    }

    /// Where a record with so many bytes of payload goes that is appended next: at the log's end, or at
    /// the begin of the next segment.
    pub fn next_place(&self, payload_len: usize) -> Place
        requires { payload_len ≤ longest }
        ensures { result ≡ (roomy self.now payload_len).end }
    {
        if self.has_room(payload_len) {
            return self.end;
        }
        Place {
            seg: next_segment(self.end.seg),
            off: 0,
        }
    }

    /// Appends a record with this payload, as `append_parts` does, and gives its place. What `Failed` leaves,
    /// and what comes after segment 2^64 - 1, is said there.
    pub fn append<L: LogFile>(
        &mut self,
        dev: &mut L,
        kind: u8,
        payload: &[u8],
    ) -> Result<Place, Failed>
        requires usable { IsUsable (L.state dev.old) }
        requires known_from { LOGICAL ≤ kind }
        requires known_to { kind < SEAL }
        requires short { length payload.now ≤ longest }
        requires end { L.tells → EndsThere self.old (L.history dev.old).world }

        ensures place { IfOk result (λ place. place ≡ (roomy self.old (length payload.now)).end) }
        ensures grown { OnOk result
            (self.new ≡ grown self.old (record { kind = kind; payload = payload.now })) }
        ensures ends { L.tells → OnOk result (EndsThere self.new (L.history dev.new).world) }

        // Which calls were made, in this order, and how far they came.
        ensures steps { L.tells → DoesSteps (L.history dev.old) (L.history dev.new) result
            (steps_of self.new.tried self.old (record { kind = kind; payload = payload.now })) self.old.end }
        ensures reaches { L.tells → Reaches self.new.tried self.old
            (record { kind = kind; payload = payload.now }) (L.history dev.old).world
            (L.history dev.new).world }
        ensures failed { OnErr result (self.new
            ≡ failed_append self.new.tried self.old (record { kind = kind; payload = payload.now })) }
        ensures cause { HasCause (L.state dev.old) (L.state dev.new) result }
    {
        self.append_parts(dev, kind, payload, &[])
    }

    /// Appends a record whose payload is `front` and after it `rest`, and gives its place. Where it doesn't
    /// fit into the segment with a SEAL after it, the log rolls first: a SEAL is written at its end, if it
    /// fits there, the segment is forced, the next one is cut to nothing and forced, and the record goes to
    /// its begin. It isn't lasting until the log is forced.
    ///
    /// Segments are numbered from 1, and after 2^64 - 1 from 1 again: it promises nothing of the store then,
    /// and a `Scan` ends after the SEAL of segment 2^64 - 1.
    ///
    /// After `Failed` a prefix of these steps were done. The record may be in the log or not where
    /// `tried` is true, and else it isn't. Nothing is to be appended any more.
    pub fn append_parts<L: LogFile>(
        &mut self,
        dev: &mut L,
        kind: u8,
        front: &[u8],
        rest: &[u8],
    ) -> Result<Place, Failed>
        requires usable { IsUsable (L.state dev.old) }
        requires known_from { LOGICAL ≤ kind }
        requires known_to { kind < SEAL }
        requires short { length (front.now ++ rest.now) ≤ longest }
        requires end { L.tells → EndsThere self.old (L.history dev.old).world }

        ensures place { IfOk result (λ place. place ≡ (roomy self.old (length (front.now ++ rest.now))).end) }
        ensures grown { OnOk result
            (self.new ≡ grown self.old (record { kind = kind; payload = front.now ++ rest.now })) }
        ensures ends { L.tells → OnOk result (EndsThere self.new (L.history dev.new).world) }

        // Which calls were made, in this order, and how far they came.
        ensures steps { L.tells → DoesSteps (L.history dev.old) (L.history dev.new) result
            (steps_of self.new.tried self.old (record { kind = kind; payload = front.now ++ rest.now })) self.old.end }
        ensures reaches { L.tells → Reaches self.new.tried self.old
            (record { kind = kind; payload = front.now ++ rest.now }) (L.history dev.old).world
            (L.history dev.new).world }
        ensures failed { OnErr result (self.new
            ≡ failed_append self.new.tried self.old (record { kind = kind; payload = front.now ++ rest.now })) }
        ensures cause { HasCause (L.state dev.old) (L.state dev.new) result }
    {
        self.tried = false;
        self.make_room(dev, front.len() + rest.len())?;
        self.add(dev, kind, front, rest)
    }

    /// Forces the last segment, so that the log is lasting up to its end. After `Failed` what was
    /// appended since the last force may be lasting or not.
    pub fn force<L: LogFile>(&mut self, dev: &mut L) -> Result<(), Failed>
        requires usable { IsUsable (L.state dev.old) }
        ensures does { L.tells → Does (L.history dev.old) (L.history dev.new) result
            (log_forced self.old.end.seg (L.history dev.old).world) }
        ensures unmoved { self.new ≡ self.old }
        ensures cause { HasCause (L.state dev.old) (L.state dev.new) result }
    {
        dev.force_log(self.end.seg)
    }

    /// Removes the segments below `seg` that are kept and there, the lowest first. The absence of each is
    /// forced before the next one is removed. It takes no memory.
    ///
    /// After `Failed` a prefix of this was done, and the same segments count as kept.
    pub fn drop_before<H: Host>(&mut self, host: &mut H, seg: u64) -> Result<(), Failed>
        requires usable { IsUsable (H.Device.state host.old) }
        requires below_end { seg ≤ self.old.end.seg }
        requires end { H.Device.tells → EndsThere self.old (H.Device.history host.old).world }
        ensures kept { OnOk result (self.new ≡ kept_from seg self.old) }
        ensures unmoved { OnErr result (self.new ≡ self.old) }

        // What is there then: all other segments are as they were.
        ensures dropped { H.Device.tells → OnOk result (AreDropped self.old.first self.new.first
            (H.Device.history host.old).world (H.Device.history host.new).world) }
        ensures ends { H.Device.tells → OnOk result (EndsThere self.new (H.Device.history host.new).world) }
        ensures steps { H.Device.tells
            → DoesSteps (H.Device.history host.old) (H.Device.history host.new) result
            (drop_before_steps self.old seg (H.Device.history host.old).world) self.old.end }
        ensures cause { HasCause (H.Device.state host.old) (H.Device.state host.new) result }
    {
        let to = self.first.max(seg);
        drop_range(host, self.first, to)?;
        self.first = to;
        Ok(())
    }

    // Rolls the log where a record with so many bytes of payload doesn't fit.
    fn make_room<L: LogFile>(&mut self, dev: &mut L, payload_len: usize) -> Result<(), Failed>
        requires usable { IsUsable (L.state dev.old) }
        requires short { payload_len ≤ longest }
        requires end { L.tells → EndsThere self.old (L.history dev.old).world }
        ensures roomy { OnOk result (self.new ≡ roomy self.old payload_len) }
        ensures room { OnOk result (HasRoom self.new payload_len) }
        ensures unmoved { OnErr result (self.new ≡ self.old) }
        ensures ends { L.tells → OnOk result (EndsThere self.new (L.history dev.new).world) }
        ensures steps { L.tells → DoesSteps (L.history dev.old) (L.history dev.new) result
            (room_steps self.old payload_len) self.old.end }
        ensures cause { HasCause (L.state dev.old) (L.state dev.new) result }
    {
        // For the proof alone: what holds of every log (`IsLogEnd`).
        let _ = &self.first;
        if self.has_room(payload_len) {
            return Ok(());
        }
        self.roll(dev)
    }

    // Goes on in the next segment.
    fn roll<L: LogFile>(&mut self, dev: &mut L) -> Result<(), Failed>
        requires usable { IsUsable (L.state dev.old) }
        requires end { L.tells → EndsThere self.old (L.history dev.old).world }
        ensures rolled { OnOk result (self.new ≡ rolled self.old) }
        ensures unmoved { OnErr result (self.new ≡ self.old) }
        ensures ends { L.tells → OnOk result (EndsThere self.new (L.history dev.new).world) }
        ensures steps { L.tells → DoesSteps (L.history dev.old) (L.history dev.new) result
            (roll_steps self.old.end) self.old.end }
        ensures cause { HasCause (L.state dev.old) (L.state dev.new) result }
    {
        let sealed = self.seal(dev)?;
        let sealed_end = Place {
            seg: self.end.seg,
            off: self.end.off + sealed,
        };
        self.end = enter_next(dev, sealed_end)?;
        self.first = self.first.min(self.end.seg);
        self.total = self.total.saturating_add(sealed as u64);
        Ok(())
    }

    // Writes a SEAL at the log's end where it fits, and answers how many bytes it has.
    fn seal<L: LogFile>(&mut self, dev: &mut L) -> Result<u32, Failed>
        requires usable { IsUsable (L.state dev.old) }
        requires end { L.tells → EndsThere self.old (L.history dev.old).world }
        ensures len { IfOk result (λ len. len ≡ seal_len self.old.end) }
        ensures unmoved { self.new ≡ self.old }
        ensures steps { L.tells → DoesSteps (L.history dev.old) (L.history dev.new) result
            (seal_steps self.old.end) self.old.end }
        ensures cause { HasCause (L.state dev.old) (L.state dev.new) result }
    {
        if self.end.off > FRAME_END_MAX {
            return Ok(0);
        }
        self.write(dev, SEAL, &[], &[])?;
        Ok(FRAME_EXTRA as u32)
    }

    // Writes a record at the log's end, which is after it then, and gives its place.
    fn add<L: LogFile>(
        &mut self,
        dev: &mut L,
        kind: u8,
        front: &[u8],
        rest: &[u8],
    ) -> Result<Place, Failed>
        requires usable { IsUsable (L.state dev.old) }
        requires known_from { LOGICAL ≤ kind }
        requires known_to { kind < SEAL }
        requires short { length (front.now ++ rest.now) ≤ longest }
        requires room { HasRoom self.old (length (front.now ++ rest.now)) }
        requires end { L.tells → EndsThere self.old (L.history dev.old).world }
        ensures place { IfOk result (λ place. place ≡ self.old.end) }
        ensures moved { OnOk result
            (self.new ≡ moved self.old (record { kind = kind; payload = front.now ++ rest.now })) }
        ensures unmoved { OnErr result (self.new ≡ tried_log self.old) }
        ensures tried { self.new.tried ≡ true }
        ensures ends { L.tells → OnOk result (EndsThere self.new (L.history dev.new).world) }
        ensures does { L.tells → Does (L.history dev.old) (L.history dev.new) result
            (written self.old.end (record { kind = kind; payload = front.now ++ rest.now }) (L.history dev.old).world) }
        ensures cause { HasCause (L.state dev.old) (L.state dev.new) result }
    {
        self.tried = true;
        let place = self.end;
        let len = self.write(dev, kind, front, rest)?;
        self.end = Place {
            seg: place.seg,
            off: place.off + len,
        };
        self.total = self.total.saturating_add(len as u64);
        Ok(place)
    }

    // Writes a frame at the log's end, and answers how many bytes it has. The log's end stays before it.
    fn write<L: LogFile>(
        &mut self,
        dev: &mut L,
        kind: u8,
        front: &[u8],
        rest: &[u8],
    ) -> Result<u32, Failed>
        requires usable { IsUsable (L.state dev.old) }
        requires frame { IsFrame self.old.end (record { kind = kind; payload = front.now ++ rest.now }) }
        requires end { L.tells → EndsThere self.old (L.history dev.old).world }
        ensures len { IfOk result (λ len. len ≡ frame_len (record { kind = kind; payload = front.now ++ rest.now })) }
        ensures unmoved { self.new ≡ self.old }
        ensures does { L.tells → Does (L.history dev.old) (L.history dev.new) result
            (written self.old.end (record { kind = kind; payload = front.now ++ rest.now }) (L.history dev.old).world) }
        ensures cause { HasCause (L.state dev.old) (L.state dev.new) result }
    {
        let place = self.end;
        let len = front.len() + rest.len() + FRAME_EXTRA;
        write_frame(kind, place, front, rest, &mut self.frame[..len]);
        dev.write_log(place.seg, place.off as u64, &self.frame[..len])?;
        Ok(len as u32)
    }
}

// Forces the segment that the log ended in, cuts the next one to nothing, forces it, and gives its begin.
fn enter_next<L: LogFile>(dev: &mut L, sealed_end: Place) -> Result<Place, Failed>
    requires usable { IsUsable (L.state dev.old) }
    ensures begin { IfOk result (λ begin. begin ≡ next_begin sealed_end) }
    ensures empty { L.tells → OnOk result
        (length (bytes_of (segment_in (L.history dev.new).world (next_segment sealed_end.seg))) ≡ 0) }
    ensures steps { L.tells →
        DoesSteps (L.history dev.old) (L.history dev.new) result enter_steps sealed_end }
    ensures cause { HasCause (L.state dev.old) (L.state dev.new) result }
{
    dev.force_log(sealed_end.seg)?;
    begin_next(dev, sealed_end)
}

// Cuts the segment after the one of the log's end to nothing, forces it, and gives its begin.
fn begin_next<L: LogFile>(dev: &mut L, end: Place) -> Result<Place, Failed>
    requires usable { IsUsable (L.state dev.old) }
    ensures begin { IfOk result (λ begin. begin ≡ next_begin end) }
    ensures empty { L.tells → OnOk result
        (length (bytes_of (segment_in (L.history dev.new).world (next_segment end.seg))) ≡ 0) }
    ensures steps { L.tells →
        DoesSteps (L.history dev.old) (L.history dev.new) result begin_steps end }
    ensures cause { HasCause (L.state dev.old) (L.state dev.new) result }
{
    let seg = next_segment(end.seg);
    dev.cut_log(seg, 0)?;
    dev.force_log(seg)?;
    Ok(Place { seg, off: 0 })
}

// The segment that comes after this one: after the last number comes the first one again.
fn next_segment(seg: u64) -> u64
    ensures { result ≡ next_segment seg }
{
    if seg == u64::MAX { 1 } else { seg + 1 }
}
