//! Lists, one for each of so many numbers.
ghost use Rattle.std.specs.Prelude.{◌≡◌, ◌<◌, ◌++◌, [], ◌∷◌, ◌≢◌, ℕ, length, OnOk, IfOk};
ghost use Rattle.design_nets.specs.Listing.{list_in};

use smallvec::SmallVec;
use std::alloc::{AllocError, Global};

/// So many lists with nothing in them. The only refusal is want of memory.
pub fn empty_lists<T: Drop + Default>(
    alloc: Global,
    count: usize,
) -> Result<Vec<SmallVec<T, 2>>, AllocError>
    ensures counted { IfOk result (λ lists. length lists.items ≡ count) }
    ensures empty { IfOk result (λ lists. (k : ℕ) → list_in lists.items k ≡ []) }
{
    let mut lists = Vec::with_capacity(alloc, count)?;
    for _ in 0..count {
        lists.push(SmallVec::new(alloc))?;
    }
    Ok(lists)
}

/// Puts an element at the end of a list. The only refusal is want of memory.
pub fn push_to<T: Drop + Default>(
    lists: &mut Vec<SmallVec<T, 2>>,
    to: u32,
    element: T,
) -> Result<(), AllocError>
    requires { to < length lists.old.items }
    ensures counted { OnOk result (length lists.new.items ≡ length lists.old.items) }
    ensures grown { OnOk result (list_in lists.new.items to ≡ list_in lists.old.items to ++ element ∷ []) }
    ensures kept { OnOk result ((k : ℕ) → k ≢ to → list_in lists.new.items k ≡ list_in lists.old.items k) }
{
    let list = &mut lists[to as usize];
    list.push(element)?;
    Ok(())
}
