//! What one page of a tree says of a key.

ghost use Rattle.std.specs.Prelude.{◌≡◌, ◌≢◌, ℕ, ◌+◌, ◌-◌, ◌<◌, ◌≤◌, false, true, length};
ghost use Rattle.pm_btpage.specs.IndexPages.{items_of, index_of, IsIndexPage};
ghost use Rattle.pm_btpage.specs.declared.layout.TheConstants.{LEAF_KIND, INNER_KIND};
ghost use Rattle.pm_pages.specs.Rows.{kind_of};
ghost use Rattle.pm_pages.specs.PageLists.{IsReadable};
ghost use Rattle.pm_pages.specs.Trees.{child_of};
ghost use Rattle.pm_tree.specs.Maps.{get_in};
ghost use Rattle.pm_tree.specs.Steps.{IsChildFor, IsStepOn};

use pm_btpage::{Found, INNER_KIND, LEAF_KIND, find, first, word_at};
use pm_types::PageId;
use pm_types::head::KIND_AT;

/// What a page says of a key. For `tree_get` alone, which the program doesn't call.
#[derive(Clone, Copy, Debug, PartialEq, Eq, Drop)]
pub enum Step {
    /// The page is a leaf: the key's word, if it is there.
    Word(Option<u64>),
    /// The page is an inner page: the index of the child below which the key stands.
    Child(u32),
    /// The page is of no tree.
    Other,
}

/// What a page says of a key. For `tree_get` alone.
pub fn step_on(page: &[u8], key: &[u8]) -> Step
    requires { IsReadable page.now }
    ensures { IsStepOn page.now key.now result }
{
    let kind = page[KIND_AT as usize];
    if kind == LEAF_KIND {
        return Step::Word(word_of(page, key));
    }
    if kind == INNER_KIND {
        return Step::Child(child(page, child_for(page, key)));
    }
    Step::Other
}

/// The word of a key in a page, if it is there. For `step_on` alone.
pub fn word_of(page: &[u8], key: &[u8]) -> Option<u64>
    requires { IsIndexPage page.now }
    ensures { result ≡ get_in (items_of page.now) key.now }
{
    match find(page, key) {
        Found::At(i) => Some(word_at(page, i)),
        Found::Before(_) => None,
    }
}

/// The number of the child below which a key stands; 0 is the first.
pub fn child_for(page: &[u8], key: &[u8]) -> u16
    requires { IsIndexPage page.now }
    ensures { IsChildFor (items_of page.now) key.now result }
{
    match find(page, key) {
        Found::At(i) => i + 1,
        Found::Before(i) => i,
    }
}

/// The index of a child of an inner page; 0 is the first.
pub fn child(page: &[u8], i: u16) -> u32
    requires page { IsIndexPage page.now }
    requires inner { (index_of page.now).leaf ≡ false }
    requires child { i ≤ length (items_of page.now) }
    ensures { result ≡ child_of page.now i }
{
    if i == 0 {
        return first(page).index();
    }
    PageId(word_at(page, i - 1)).index()
}
