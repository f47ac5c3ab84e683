//! Pages that a table names, over a disk that can't be read.

ghost use Rattle.std.specs.Prelude.{◌≡◌, ◌≤◌, ℕ};
ghost use Rattle.pm_types.specs.Counts.{HasRisen};
ghost use Rattle.pm_pages.specs.Paged.{IsTold, IsThere};
ghost use Rattle.pm_pages.specs.Plain.{plain_seen, ArePlainReady};
ghost use Rattle.pm_tests_logs.specs.Table.{table_seen, IsTableReady};

use pm_pages::{Pages, PlainPages};
use pm_types::{PageFault, Patch};

/// Pages that are held in memory under their names, without being asked for, and no others: every
/// read of another page fails. Nothing is known of the content of a page that isn't held.
#[derive(Drop)]
pub struct TablePages {
    plain: PlainPages,
    faults: u64,
}

impl TablePages {
    /// The pages that are held, of which the last `ready` answered Ok.
    pub fn of(plain: PlainPages) -> TablePages
        requires { ArePlainReady plain }
        ensures ready { IsTableReady result }
        ensures pages { (i : ℕ) → (table_seen result).pages i ≡ (plain_seen plain).pages i }
        ensures asked { (i : ℕ) → (table_seen result).asked i ≡ (plain_seen plain).asked i }
        ensures spare { (table_seen result).spare ≡ (plain_seen plain).spare }
        ensures page_size { (table_seen result).page_size ≡ (plain_seen plain).page_size }
        ensures held { (i : ℕ) → IsTold ⊥ (table_seen result) i → IsThere (table_seen result) i }
    {
        TablePages { plain, faults: 0 }
    }

    /// How many reads failed.
    pub fn faults(&self) -> u64
        ensures { result ≡ (table_seen self.now).faults }
    {
        self.faults
    }
}

// The count after one more failed read.
fn raised(faults: u64) -> u64
    ensures risen { HasRisen faults result }
    ensures later { faults ≤ result }
{
    faults.saturating_add(1)
}

impl Pages for TablePages {
    ghost use Rattle.pm_tests_logs.specs.Table.{table_seen, IsTableReady, KeepsTable, table_written};
    ghost use Rattle.pm_tests_logs.specs.TableLaws as laws;

    ghost tells = { ⊥ };

    ghost seen = { table_seen };

    ghost ready = { IsTableReady };

    ghost kept = { KeepsTable };

    ghost written = { table_written };

    fn page_size(&self) -> u32 {
        self.plain.page_size()
    }

    fn part(&self) -> u16 {
        self.plain.part()
    }

    fn view(&mut self, index: u32) -> Result<Option<&[u8]>, PageFault> {
        if index as usize >= self.plain.len() {
            self.faults = raised(self.faults);
            return Err(PageFault::Failed);
        }
        self.plain.view(index)
    }

    fn change(&mut self, index: u32) -> Result<(), PageFault> {
        if index as usize >= self.plain.len() {
            self.faults = raised(self.faults);
            return Err(PageFault::Failed);
        }
        self.plain.change(index)
    }

    fn fresh(&mut self, index: u32) -> Result<(), PageFault> {
        if index as usize > self.plain.len() {
            self.faults = raised(self.faults);
            return Err(PageFault::Failed);
        }
        self.plain.fresh(index)
    }

    fn page_mut(&mut self, index: u32) -> &mut [u8] {
        self.plain.page_mut(index)
    }

    fn note(&mut self, index: u32, patch: &Patch) {
        self.plain.note(index, patch);
    }

    fn let_go(&mut self) {
        self.plain.let_go();
    }

    ghost kept_refl = { laws.kept_refl };

    ghost kept_then = { laws.kept_then };

    ghost kept_ready = { λ s t keeps. keeps.ready };

    ghost writes = { laws.writes };

    ghost kept_written = { laws.kept_written };
}
