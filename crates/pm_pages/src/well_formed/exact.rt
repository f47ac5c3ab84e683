//! Lists of page numbers that have exactly certain numbers, each once.

ghost use Rattle.std.specs.Prelude.{◌≡◌, ◌↔◌, false, IsTrue, IfOk, length};
ghost use Rattle.std.specs.List.{slice_index_or};
ghost use Rattle.pm_pages.specs.Chains.{IsExactly};

use std::alloc::{AllocError, Global};

/// Whether the list has exactly the numbers that are wanted, each once.
pub fn is_exactly(alloc: Global, list: &[u32], wanted: &[bool]) -> Result<bool, AllocError>
    ensures { IfOk result (λ is. IsTrue is
        ↔ IsExactly (length wanted.now) (λ i. slice_index_or wanted.now i false) list.now) }
{
    let mut seen = vec![in alloc; false; wanted.len()]?;
    'each: for number in list {
        let i = *number as usize;
        if i >= seen.len() || seen[i] {
            return Ok(false);
        }
        seen[i] = true;
    }
    Ok(seen.as_slice() == wanted)
}
