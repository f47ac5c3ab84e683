//! A host in memory that gives its input in pieces, and counts the calls which read pages.

ghost use Rattle.std.specs.Prelude.{◌≡◌, ◌<◌, ◌∷◌, true, map, refl};
ghost use Rattle.pm_disk.specs.Lending.{Joins, TakesBack};

use pm_disk::{
    Device, Failed, Host, Lent, LogFile, LogReader, MarkFile, PageReader, PageWriter, SLOT_LEN,
};
use pm_disk_mem::{MemHost, MemPart, MemReader};
use pm_types::PageId;
use std::alloc::AllocError;

/// A host in memory whose reads take at most so many bytes of the input, and that counts the calls which read pages.
/// All else is passed on.
#[derive(Drop)]
pub struct PieceHost {
    pub host: MemHost,
    piece: usize,
    /// How many calls read a page. Of a round each call of its parts counts.
    pub reads: u64,
    // How many calls there were before the last round.
    before: u64,
    ghost some: { 0 < piece },
}

impl PieceHost {
    /// A host that gives pieces of this size, and has counted no call.
    pub fn of(host: MemHost, piece: usize) -> PieceHost
        requires { 0 < piece }
        ensures { result.host ≡ host }
    {
        PieceHost {
            host,
            piece,
            reads: 0,
            before: 0,
        }
    }
}

impl Device for PieceHost {
    ghost use Rattle.pm_disk_mem.specs.Hosts.{first_world, events_of, history_of, state_of};
    ghost use Rattle.pm_disk_mem.specs.Sound.{sound_during};

    ghost tells = { Unit {0} };

    ghost history = { λ pieces. history_of pieces.host };

    ghost state = { λ pieces. state_of pieces.host };

    ghost sound = { λ pieces _. sound_during (first_world pieces.host) (events_of pieces.host) };
}

impl LogReader for PieceHost {
    fn seg_len(&mut self, seg: u64) -> Result<Option<u64>, Failed> {
        self.host.seg_len(seg)
    }

    fn read_log(&mut self, seg: u64, at: u64, into: &mut [u8]) -> Result<usize, Failed> {
        self.host.read_log(seg, at, into)
    }
}

impl LogFile for PieceHost {
    fn write_log(&mut self, seg: u64, at: u64, bytes: &[u8]) -> Result<(), Failed> {
        self.host.write_log(seg, at, bytes)
    }

    fn cut_log(&mut self, seg: u64, len: u64) -> Result<(), Failed> {
        self.host.cut_log(seg, len)
    }

    fn force_log(&mut self, seg: u64) -> Result<(), Failed> {
        self.host.force_log(seg)
    }
}

impl PageReader for PieceHost {
    fn read_page(&mut self, page: PageId, into: &mut [u8]) -> Result<bool, Failed> {
        self.reads = self.reads.saturating_add(1);
        self.host.read_page(page, into)
    }
}

impl PageWriter for PieceHost {
    fn write_page(&mut self, page: PageId, bytes: &[u8]) -> Result<(), Failed> {
        self.host.write_page(page, bytes)
    }

    fn force_pages(&mut self, part: u16) -> Result<(), Failed> {
        self.host.force_pages(part)
    }
}

impl Host for PieceHost {
    ghost use Rattle.pm_disk_mem.specs.Hosts.{history_of, state_of};
    ghost use Rattle.pm_disk_mem.specs.Lent.{history_of_part, state_of_part, state_of_reader};

    type Reader = MemReader;

    type Writer = MemPart;

    type Log = MemPart;

    fn bind(&mut self, dir: &str) -> Result<(), Failed> {
        self.host.bind(dir)
    }

    fn bind_found(&mut self, dir: &str) -> Result<(), Failed> {
        self.host.bind_found(dir)
    }

    fn read_config(&mut self, into: &mut [u8]) -> Result<usize, Failed> {
        self.host.read_config(into)
    }

    fn drop_log(&mut self, seg: u64) -> Result<(), Failed> {
        self.host.drop_log(seg)
    }

    fn read_mark(
        &mut self,
        file: MarkFile,
        slot: u8,
        into: &mut [u8; SLOT_LEN],
    ) -> Result<bool, Failed> {
        self.host.read_mark(file, slot, into)
    }

    fn write_mark(
        &mut self,
        file: MarkFile,
        slot: u8,
        bytes: &[u8; SLOT_LEN],
    ) -> Result<(), Failed> {
        self.host.write_mark(file, slot, bytes)
    }

    fn force_mark(&mut self, file: MarkFile) -> Result<(), Failed> {
        self.host.force_mark(file)
    }

    fn read(&mut self, into: &mut [u8]) -> Result<usize, Failed> {
        let count = into.len().min(self.piece);
        self.host.read(&mut into[..count])
    }

    fn print(&mut self, bytes: &[u8]) -> Result<(), Failed> {
        self.host.print(bytes)
    }

    fn lend(
        &mut self,
        due: &[PageId],
        workers: u32,
    ) -> Result<Lent<MemReader, MemPart, MemPart>, AllocError> {
        self.before = self.host.calls();
        self.host.lend(due, workers)
    }

    fn take_back(&mut self, lent: Lent<MemReader, MemPart, MemPart>)
        requires { self.old.host.is_lent ≡ true }
        ensures joins { Joins (history_of self.old.host) (history_of self.new.host)
            (history_of_part lent.log) (history_of_part lent.writer) }
        ensures returns { TakesBack (state_of self.old.host) (state_of self.new.host)
            (state_of_part lent.log ∷ state_of_part lent.writer
            ∷ map (λ reader. state_of_reader reader) lent.readers.items) }
    {
        self.host.take_back(lent);
        let made = self.host.calls().saturating_sub(self.before);
        self.reads = self.reads.saturating_add(made);
    }

    ghost parts_tell = { ((λ t. t, λ t. t), (λ t. t, λ t. t), (λ t. t, λ t. t)) };

    ghost all_pages = { λ _. record { reads = λ _. refl; writes = λ _. refl } };
}
