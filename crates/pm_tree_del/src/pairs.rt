//! Two children of an inner page that stand side by side.

ghost use Rattle.std.specs.Prelude.{◌≡◌, ◌≢◌, ℕ, ◌+◌, ◌-◌, ◌<◌, ◌≤◌, ◌↔◌, IfOk, IsTrue, length};
ghost use Rattle.pm_btpage.specs.IndexPages.{items_of};
ghost use Rattle.pm_pages.specs.PageLists.{IsReadable};
ghost use Rattle.pm_pages.specs.Paged.{AllReadable, HasPageCause};
ghost use Rattle.pm_pages.specs.Edits.{LooksAtPages};
ghost use Rattle.pm_tree_del.specs.Pairs.{IsPairOn, IsPairIn, MayMend};

use pm_btpage::{INNER_KIND, count};
use pm_pages::Pages;
use pm_tree::child;
use pm_types::PageFault;
use pm_types::head::KIND_AT;

/// Two children of an inner page that stand side by side.
#[derive(Clone, Copy, Debug, PartialEq, Eq, Drop)]
pub struct Pair {
    /// The item of the inner page whose key parts them.
    pub place: u16,
    /// The index of the one with the lower keys.
    pub left: u32,
    /// The index of the other.
    pub right: u32,
}

impl Pair {
    /// Whether both may be mended below page `at`, in a partition of so many pages: they are two other pages of
    /// the partition, and one of them is `child`.
    pub fn may_mend(&self, count: u32, at: u32, child: u32) -> bool
        ensures { IsTrue result ↔ MayMend self.now count at child }
    {
        self.left >= 1
            && self.left < count
            && self.right >= 1
            && self.right < count
            && self.left != at
            && self.right != at
            && self.left != self.right
            && (self.left == child || self.right == child)
    }
}

/// Child i of an inner page and the one before it, or, of the first child, the one after it. `None` where there
/// is no such pair.
pub fn pair_on(page: &[u8], i: u16) -> Option<Pair>
    requires { IsReadable page.now }
    ensures { IsPairOn page.now i result }
{
    if page[KIND_AT as usize] != INNER_KIND {
        return None;
    }
    let items = count(page);
    if items == 0 || i > items {
        return None;
    }
    let place = i.saturating_sub(1);
    Some(Pair {
        place,
        left: child(page, place),
        right: child(page, place + 1),
    })
}

/// The same of a page that was asked for.
pub fn find_pair<P: Pages>(pages: &mut P, at: u32, i: u16) -> Result<Option<Pair>, PageFault>
    requires ready { P.ready pages.old }
    requires asked { IsTrue ((P.seen pages.old).asked at) }
    requires some { 1 ≤ at }
    requires readable { AllReadable (P.seen pages.old) }
    ensures kept { P.kept pages.old pages.new }
    ensures looks { LooksAtPages P.tells (P.seen pages.old) (P.seen pages.new) 0 }
    ensures readable { AllReadable (P.seen pages.new) }
    ensures pair { IfOk result (IsPairIn (P.seen pages.new) at i) }
    ensures cause { HasPageCause P.tells (P.seen pages.old) (P.seen pages.new).faults at result }
{
    match pages.view(at)? {
        // Not reached: page `at` isn't the first one.
        None => Ok(None),
        Some(page) => Ok(pair_on(page, i)),
    }
}
