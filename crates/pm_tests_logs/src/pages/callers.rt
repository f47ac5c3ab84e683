//! The callers, over both kinds of pages.

ghost use Rattle.std.specs.Prelude.{◌≡◌, ◌≢◌, ◌<◌, ◌≤◌, IsSome, OnOk};
ghost use Rattle.pm_types.specs.declared.limits.TheConstants.{CACHES};
ghost use Rattle.pm_pages.specs.Paged.{AllReadable, IsTold, IsThere};
ghost use Rattle.pm_pages.specs.Plain.{plain_seen, ArePlainReady, KeepsPlain};
ghost use Rattle.pm_tests_logs.specs.Edits.{SetsTwoBytes, HasTwoCauses};
ghost use Rattle.pm_tests_logs.specs.Table.{table_seen, IsTableReady, KeepsTable};

use crate::pages::edits::set_byte_twice;
use crate::pages::searches::find_in_leaf;
use crate::pages::table::TablePages;
use pm_btpage::Found;
use pm_pages::PlainPages;
use pm_types::PageFault;

/// Sets a byte of two plain pages, which are there. No error has a cause then.
pub fn set_on_plain(
    pages: &mut PlainPages,
    first: u32,
    second: u32,
    at: u16,
) -> Result<(), PageFault>
    requires ready { ArePlainReady pages.old }
    requires room { 2 ≤ (plain_seen pages.old).spare }
    requires two { first ≢ second }
    requires there { IsSome ((plain_seen pages.old).pages first) }
    requires also { IsSome ((plain_seen pages.old).pages second) }
    requires within { at < (plain_seen pages.old).page_size }
    ensures kept { KeepsPlain pages.old pages.new }
    ensures ready { ArePlainReady pages.new }
    ensures sets { OnOk result
        (SetsTwoBytes (Unit {0}) (plain_seen pages.old) (plain_seen pages.new) first second at 7) }
{
    set_byte_twice(pages, first, second, at, 7)
}

/// Sets a byte of two pages of a table, one after the other, whether or not they are held. A fault
/// of the first edit or of the second is passed on.
pub fn set_on_table(
    pages: &mut TablePages,
    first: u32,
    second: u32,
    at: u16,
) -> Result<(), PageFault>
    requires ready { IsTableReady pages.old }
    requires room { 2 ≤ (table_seen pages.old).spare }
    requires two { first ≢ second }
    requires there { IsTold ⊥ (table_seen pages.old) first → IsThere (table_seen pages.old) first }
    requires also { IsTold ⊥ (table_seen pages.old) second → IsThere (table_seen pages.old) second }
    requires within { at < (table_seen pages.old).page_size }
    ensures kept { KeepsTable pages.old pages.new }
    ensures ready { IsTableReady pages.new }
    ensures sets { OnOk result
        (SetsTwoBytes ⊥ (table_seen pages.old) (table_seen pages.new) first second at 7) }
    ensures cause { HasTwoCauses ⊥ (table_seen pages.old) (table_seen pages.new).faults first second result }
{
    set_byte_twice(pages, first, second, at, 7)
}

/// Looks twice for a key on pages of which only those that are held are known: the calls are safe
/// whatever they hold.
pub fn find_twice(pages: &mut TablePages, cache: u8, key: &[u8]) -> Result<Option<Found>, PageFault>
    requires ready { IsTableReady pages.old }
    requires room { 4 ≤ (table_seen pages.old).spare }
    requires cache { cache < CACHES }
    requires readable { AllReadable (table_seen pages.old) }
    ensures readable { AllReadable (table_seen pages.new) }
    ensures kept { KeepsTable pages.old pages.new }
{
    find_in_leaf(pages, cache, key)?;
    find_in_leaf(pages, cache, key)
}
