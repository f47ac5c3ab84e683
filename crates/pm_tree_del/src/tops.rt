//! What a root is once an item went.

ghost use Rattle.std.specs.Prelude.{◌≡◌, ◌≤◌, IfOk, IsTrue};
ghost use Rattle.pm_btpage.specs.declared.layout.TheConstants.{LEAF_KIND, INNER_KIND};
ghost use Rattle.pm_btpage.specs.IndexPages.{IsIndexPage};
ghost use Rattle.pm_pages.specs.Rows.{kind_of};
ghost use Rattle.pm_pages.specs.PageLists.{IsReadable};
ghost use Rattle.pm_pages.specs.Paged.{AllReadable, HasPageCause};
ghost use Rattle.pm_pages.specs.Edits.{LooksAtPages};
ghost use Rattle.pm_tree_del.specs.Roots.{IsTopOn, IsTopIn};

use pm_btpage::{INNER_KIND, LEAF_KIND, count};
use pm_pages::Pages;
use pm_tree::child;
use pm_types::PageFault;
use pm_types::head::KIND_AT;

/// What a root is.
#[derive(Clone, Copy, Debug, PartialEq, Eq, Drop)]
pub enum Top {
    /// A page with an item.
    Full,
    /// A leaf without one.
    Empty,
    /// An inner page without one, and its only child.
    Only(u32),
    /// A page of no tree.
    Other,
}

/// What a page is as a root.
pub fn top_on(page: &[u8]) -> Top
    requires { IsReadable page.now }
    ensures { IsTopOn page.now result }
{
    let kind = page[KIND_AT as usize];
    if kind == LEAF_KIND {
        return leaf_top(page);
    }
    if kind == INNER_KIND {
        return inner_top(page);
    }
    Top::Other
}

fn leaf_top(page: &[u8]) -> Top
    requires page { IsIndexPage page.now }
    requires leaf { kind_of page.now ≡ LEAF_KIND }
    ensures { IsTopOn page.now result }
{
    if count(page) == 0 {
        Top::Empty
    } else {
        Top::Full
    }
}

fn inner_top(page: &[u8]) -> Top
    requires page { IsIndexPage page.now }
    requires inner { kind_of page.now ≡ INNER_KIND }
    ensures { IsTopOn page.now result }
{
    if count(page) == 0 {
        Top::Only(child(page, 0))
    } else {
        Top::Full
    }
}

/// What a page is that was asked for.
pub fn find_top<P: Pages>(pages: &mut P, root: u32) -> Result<Top, PageFault>
    requires ready { P.ready pages.old }
    requires some { 1 ≤ root }
    requires asked { IsTrue ((P.seen pages.old).asked root) }
    requires readable { AllReadable (P.seen pages.old) }
    ensures kept { P.kept pages.old pages.new }
    ensures looks { LooksAtPages P.tells (P.seen pages.old) (P.seen pages.new) 0 }
    ensures readable { AllReadable (P.seen pages.new) }
    ensures top { IfOk result (IsTopIn (P.seen pages.new) root) }
    ensures cause { HasPageCause P.tells (P.seen pages.old) (P.seen pages.new).faults root result }
{
    match pages.view(root)? {
        // Not reached: page `root` isn't the first one.
        None => Ok(Top::Other),
        Some(page) => Ok(top_on(page)),
    }
}
