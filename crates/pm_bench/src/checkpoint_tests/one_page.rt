//! A store of one page, whose log has long records.

ghost use Rattle.std.specs.Prelude.{◌≡◌, ◌≤◌, None, length, vec_len, IfOk, MatchOption, OnOk};
ghost use Rattle.pm_types.specs.Ids.{page_id};
ghost use Rattle.pm_types.specs.Shapes.{IsShape};
ghost use Rattle.pm_disk.specs.States.{IsUsable};
ghost use Rattle.pm_marks.specs.Slots.{IsMarkPlace};
ghost use Rattle.pm_segments.specs.Ends.{EndsThere};
ghost use Rattle.pm_ckpt.specs.Marked.{HasRoomFor};
ghost use Rattle.pm_ckpt.specs.Writes.{held_in, IsHeld};

use pm_ckpt::Ckpt;
use pm_disk::{Failed, Host, LogFile};
use pm_frame::{LOGICAL, RESTART, SNAPSHOT};
use pm_pages::PlainPages;
use pm_segments::Log;
use pm_types::{Page, PageId, Place, Shape};
use std::test::Fail;

/// How many bytes a page has.
pub const PAGE_BYTES: usize = 1_024;

/// The store's shape.
pub fn shape() -> Shape
    ensures shape { IsShape result }
    ensures size { result.page_size ≡ 1024 }
{
    Shape {
        page_size: 1_024,
        partitions: 1,
        version: 1,
        max_rows: 1,
        segment_bytes: 65_536,
    }
}

/// So many sevens.
pub fn sevens(rt: &impl AllocGlobal, len: usize) -> Result<Vec<u8>, Fail>
    ensures { IfOk result (λ bytes. length bytes.items ≡ len) }
{
    Ok(vec![in rt.alloc(); 7; len]?)
}

/// The payload of the page's record: its name and its bytes.
pub fn page_record(rt: &impl AllocGlobal) -> Result<Vec<u8>, Fail>
    ensures { IfOk result (λ bytes. length bytes.items ≤ 1032) }
{
    let mut payload = Vec::from_slice(rt.alloc(), &[0, 0, 0, 0, 0, 0, 1, 0])?;
    payload.extend_from_slice(&sevens(rt, PAGE_BYTES)?)?;
    Ok(payload)
}

/// What is written besides the markers.
#[derive(Drop)]
pub struct Written {
    pub long: Vec<u8>,
    pub payload: Vec<u8>,
    ghost long_fits: { vec_len long ≤ 65000 },
    ghost payload_fits: { vec_len payload ≤ 1032 },
}

/// A long record, and the page's.
pub fn all_written(rt: &impl AllocGlobal) -> Result<Written, Fail> {
    Ok(Written {
        long: sevens(rt, 65_000)?,
        payload: page_record(rt)?,
    })
}

/// The partition with the page.
pub fn partition(rt: &impl AllocGlobal) -> Result<Vec<PlainPages>, Fail>
    ensures { IfOk result (λ pages. IsHeld 1024 (held_in pages.items) (page_id 0 0)) }
{
    let page = Page {
        bytes: sevens(rt, PAGE_BYTES)?,
    };
    let pages = Vec::from_array(rt.alloc(), [page])?;
    let plain = PlainPages::of(rt.alloc(), &shape(), 0, pages)?;
    Ok(Vec::from_array(rt.alloc(), [plain])?)
}

/// Begins the log: a RESTART, and a record after which the first segment has no room for one like it.
pub fn begin_log<L: LogFile>(host: &mut L, long: &[u8]) -> Result<Log, Failed>
    requires usable { IsUsable (L.state host.old) }
    requires long { length long.now ≤ 65000 }
    ensures usable { IsUsable (L.state host.new) }
    ensures end { IfOk result (λ log. L.tells → EndsThere log (L.history host.new).world) }
{
    let mut log = Log::cut_tail(host, 1, Place { seg: 1, off: 0 }, 65_536)?;
    log.append(host, RESTART, &[1; 16])?;
    log.append(host, LOGICAL, long)?;
    Ok(log)
}

/// Appends the record of the page.
pub fn log_page<L: LogFile>(host: &mut L, log: &mut Log, payload: &[u8]) -> Result<(), Failed>
    requires usable { IsUsable (L.state host.old) }
    requires short { length payload.now ≤ 1032 }
    requires end { L.tells → EndsThere log.old (L.history host.old).world }
    ensures usable { IsUsable (L.state host.new) }
    ensures end { L.tells → OnOk result (EndsThere log.new (L.history host.new).world) }
{
    log.append(host, SNAPSHOT, payload)?;
    Ok(())
}

/// Makes the checkpoint of the page with this replay place.
pub fn make_checkpoint<H: Host>(
    host: &mut H,
    log: &mut Log,
    ckpt: &mut Ckpt,
    pages: &[PlainPages],
    replay: Option<Place>,
) -> Result<(), Failed>
    requires usable { IsUsable (H.Device.state host.old) }
    requires end { H.Device.tells → EndsThere log.old (H.Device.history host.old).world }
    requires shape { IsShape ckpt.old.shape }
    requires first { ckpt.old.mark ≡ None }
    requires room { HasRoomFor 1 ckpt.old }
    requires replay { MatchOption replay (Unit {0}) (λ place. IsMarkPlace place) }
    requires held { IsHeld ckpt.old.shape.page_size (held_in pages.now) (page_id 0 0) }
    ensures { IsUsable (H.Device.state host.new) }
{
    let begin = log.next_place(20);
    if begin.seg == 0 || begin.off > 1_000_000 {
        return Err(Failed);
    }
    ckpt.whole_plain(host, log, pages, &[PageId::new(0, 0)], replay)
}
