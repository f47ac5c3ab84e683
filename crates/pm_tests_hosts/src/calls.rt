//! The calls of a host as values, and what a host answers to each, as text.

ghost use Rattle.std.specs.Prelude.{◌≡◌, false, OnOk};
ghost use Rattle.pm_disk.specs.States.{IsUsable};

use crate::noted::Forced;
use crate::parts::answer_round;
use pm_disk::{Failed, Host, LogFile, MarkFile};
use pm_types::PageId;
use std::alloc::{AllocError, Global};

/// How many bytes a page has here.
pub const PAGE: usize = 4;

/// A call of a host.
#[derive(Clone, Copy)]
pub enum Call {
    Bind(&'static str),
    ReadConfig,
    SegLen(u64),
    /// From this offset on.
    ReadLog(u64, u64),
    /// The bytes are written at the segment's start.
    WriteLog(u64, &'static [u8]),
    /// The bytes are written at the segment's end.
    AppendLog(u64, &'static [u8]),
    /// The segment is cut to half its length.
    HalveLog(u64),
    ForceLog(u64),
    DropLog(u64),
    ReadPage(u16, u32),
    /// Each byte of the page becomes this one.
    WritePage(u16, u32, u8),
    ForcePages(u16),
    ReadMark(MarkFile, u8),
    /// Each byte of the slot becomes this one.
    WriteMark(MarkFile, u8, u8),
    ForceMark(MarkFile),
    Read,
    Print(&'static [u8]),
    /// The host is split, and calls are made on its parts.
    Round(Round),
}

/// What is done on the parts of a host.
#[derive(Clone, Copy)]
pub struct Round {
    /// What is appended to the first segment by the log part.
    pub append: &'static [u8],
    /// Whether the log part forces it then.
    pub forces: bool,
    /// The page that the writer writes, and the byte that each of its bytes becomes. Its file is forced.
    pub due: (u16, u32, u8),
    /// The page that a reader reads. It isn't the one that is written.
    pub read: (u16, u32),
}

impl Call {
    /// Whether a host may make the change later, with the next other call on the log.
    pub fn may_wait(&self) -> bool {
        match self {
            Call::WriteLog(..) => true,
            Call::AppendLog(..) => true,
            Call::Round(round) => !round.forces,
            _ => false,
        }
    }

    /// The file that is to be forced, if one is. What the parts of a host force isn't told.
    pub fn forced_file(&self) -> Option<Forced> {
        match self {
            Call::ForceLog(seg) => Some(Forced::Segment(*seg)),
            Call::ForcePages(part) => Some(Forced::Pages(*part)),
            Call::ForceMark(file) => Some(Forced::Marks(*file)),
            _ => None,
        }
    }
}

/// Writes the bytes at a segment's end.
pub fn append_log<L: LogFile>(log: &mut L, seg: u64, bytes: &[u8]) -> Result<(), Failed>
    requires { IsUsable (L.state log.old) }
    ensures { IsUsable (L.state log.new) }
{
    let len = log.seg_len(seg)?.unwrap_or(0);
    log.write_log(seg, len, bytes)
}

/// Cuts a segment to half its length.
fn halve_log<L: LogFile>(log: &mut L, seg: u64) -> Result<(), Failed>
    requires { IsUsable (L.state log.old) }
    ensures { IsUsable (L.state log.new) }
{
    let len = log.seg_len(seg)?.unwrap_or(0);
    log.cut_log(seg, len / 2)
}

/// A count of bytes that were read, and those.
fn answer_bytes(
    alloc: Global,
    count: Result<usize, Failed>,
    into: &[u8],
) -> Result<String, AllocError> {
    let read = &into[..count.unwrap_or(0).min(into.len())];
    format!(in alloc; "{count:?} {read:?}")
}

/// Whether a slot was there, and how many of its bytes are as its first one.
fn slot_text(
    alloc: Global,
    whole: Result<bool, Failed>,
    slot: &[u8; 64],
) -> Result<String, AllocError> {
    let first = slot[0];
    let same = slot.iter().filter(|byte| **byte == first).count();
    format!(in alloc; "{whole:?} {same} of {first}")
}

/// What a host answers to `seg_len`.
fn answer_len<L: LogFile>(alloc: Global, log: &mut L, seg: u64) -> Result<String, AllocError>
    requires { IsUsable (L.state log.old) }
    ensures { IsUsable (L.state log.new) }
{
    let len = log.seg_len(seg);
    format!(in alloc; "{len:?}")
}

/// What a host answers to `read_log`, and what it read.
fn answer_log<L: LogFile>(
    alloc: Global,
    log: &mut L,
    seg: u64,
    at: u64,
) -> Result<String, AllocError>
    requires { IsUsable (L.state log.old) }
    ensures { IsUsable (L.state log.new) }
{
    let mut into = [1; 8];
    let count = log.read_log(seg, at, &mut into);
    answer_bytes(alloc, count, &into)
}

/// What a host answers to `read_page`, and what it read.
fn answer_page<H: Host>(alloc: Global, host: &mut H, page: PageId) -> Result<String, AllocError>
    requires { IsUsable (H.state host.old) }
    ensures { IsUsable (H.state host.new) }
{
    let mut into = [1; PAGE];
    let whole = host.read_page(page, &mut into);
    format!(in alloc; "{whole:?} {into:?}")
}

/// What a host answers to `read_mark`, and what it read.
fn answer_mark<H: Host>(
    alloc: Global,
    host: &mut H,
    file: MarkFile,
    slot: u8,
) -> Result<String, AllocError>
    requires { IsUsable (H.state host.old) }
    ensures { IsUsable (H.state host.new) }
{
    let mut into = [1; 64];
    let whole = host.read_mark(file, slot.min(1), &mut into);
    slot_text(alloc, whole, &into)
}

/// What a host answers to `read_config`, and what it read.
fn answer_config<H: Host>(alloc: Global, host: &mut H) -> Result<String, AllocError>
    requires { IsUsable (H.state host.old) }
    ensures { IsUsable (H.state host.new) }
{
    let mut into = [1; 8];
    let count = host.read_config(&mut into);
    answer_bytes(alloc, count, &into)
}

/// What a host answers to `read`, and what it read.
fn answer_input<H: Host>(alloc: Global, host: &mut H) -> Result<String, AllocError>
    requires { IsUsable (H.state host.old) }
    ensures { IsUsable (H.state host.new) }
{
    let mut into = [1; 8];
    let count = host.read(&mut into);
    answer_bytes(alloc, count, &into)
}

/// What a host answers to a call that changes or forces the log.
fn change_log<L: LogFile>(log: &mut L, call: &Call) -> Result<(), Failed>
    requires { IsUsable (L.state log.old) }
    ensures { IsUsable (L.state log.new) }
{
    match call {
        Call::WriteLog(seg, bytes) => log.write_log(*seg, 0, bytes),
        Call::AppendLog(seg, bytes) => append_log(log, *seg, bytes),
        Call::HalveLog(seg) => halve_log(log, *seg),
        Call::ForceLog(seg) => log.force_log(*seg),
        _ => Err(Failed),
    }
}

/// Binds a host to a folder.
pub fn bind<H: Host>(host: &mut H, folder: &str) -> Result<(), Failed>
    requires { (H.state host.old).access.is_lent ≡ false }
    ensures { OnOk result (IsUsable (H.state host.new)) }
{
    host.bind(folder)
}

/// What a host answers to `bind` that is bound to a folder already.
fn rebind<H: Host>(host: &mut H, dir: &str) -> Result<(), Failed>
    requires { IsUsable (H.state host.old) }
    ensures { IsUsable (H.state host.new) }
{
    host.bind(dir)
}

/// What a host answers to a call that reads nothing.
fn change<H: Host>(host: &mut H, call: &Call) -> Result<(), Failed>
    requires { IsUsable (H.state host.old) }
    ensures { IsUsable (H.state host.new) }
{
    match call {
        Call::Bind(dir) => rebind(host, dir),
        Call::DropLog(seg) => host.drop_log(*seg),
        Call::WritePage(part, index, byte) => {
            host.write_page(PageId::new(*part, *index), &[*byte; PAGE])
        }
        Call::ForcePages(part) => host.force_pages(*part),
        Call::WriteMark(file, number, byte) => host.write_mark(
            *file,
            (*number).min(1),
            &[*byte; 64],
        ),
        Call::ForceMark(file) => host.force_mark(*file),
        Call::Print(bytes) => host.print(bytes),
        _ => change_log(host, call),
    }
}

/// What a host answers to a call that reads nothing, as text.
fn answer_change<H: Host>(alloc: Global, host: &mut H, call: &Call) -> Result<String, AllocError>
    requires { IsUsable (H.state host.old) }
    ensures { IsUsable (H.state host.new) }
{
    let done = change(host, call);
    format!(in alloc; "{done:?}")
}

/// What a host answers to a call, and what it read, as text.
pub fn answer<H: Host>(alloc: Global, host: &mut H, call: &Call) -> Result<String, AllocError>
    requires { IsUsable (H.state host.old) }
    ensures { IsUsable (H.state host.new) }
{
    match call {
        Call::SegLen(seg) => answer_len(alloc, host, *seg),
        Call::ReadLog(seg, at) => answer_log(alloc, host, *seg, *at),
        Call::ReadPage(part, index) => answer_page(alloc, host, PageId::new(*part, *index)),
        Call::ReadMark(file, number) => answer_mark(alloc, host, *file, *number),
        Call::ReadConfig => answer_config(alloc, host),
        Call::Read => answer_input(alloc, host),
        Call::Round(round) => answer_round(alloc, host, round),
        _ => answer_change(alloc, host, call),
    }
}
