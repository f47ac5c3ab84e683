//! The form that a page has in its partition's file.

ghost use Rattle.std.specs.Prelude.{◌≡◌, ◌≤◌, ◌↔◌, IsTrue, length};
ghost use Rattle.std.specs.Bool.{OnTrue};
ghost use Rattle.pm_types.specs.PageSizes.{IsPageSize};
ghost use Rattle.pm_types.specs.declared.limits.TheConstants.{LAST_VERSION};
ghost use Rattle.pm_pages.specs.FileForms.{sealed, HoldsPage};

/// Gives a page the form that it has in its file, which in version 1 is the page itself.
///
/// Not used by the program yet: pages go to their files as they are.
pub fn seal(_page: &mut [u8])
    requires { IsPageSize (length _page.old) }
    ensures { _page.new ≡ sealed _page.old }
{}

/// Gives the page that a file of this version holds in these bytes.
///
/// `false` comes exactly where it holds none. In version 1 any bytes are a page, so it doesn't come.
///
/// Not used by the program yet: pages are read from their files as they are.
pub fn unseal(_page: &mut [u8], _version: u16) -> bool
    requires size { IsPageSize (length _page.old) }
    requires some { 1 ≤ _version }
    requires known { _version ≤ LAST_VERSION }
    ensures holds { IsTrue result ↔ HoldsPage _version _page.old }
    ensures page { OnTrue result (_page.old ≡ sealed _page.new) }
{
    true
}
