//! Lists of one item and of none.
ghost use Rattle.std.specs.Prelude.{◌≡◌, [], ◌∷◌, IfOk};

use clk_num::List;
use std::alloc::{AllocError, Global};

/// A list of one item.
pub fn one<T: Drop>(alloc: Global, item: T) -> Result<List<T>, AllocError>
    ensures { IfOk result (λ l. l.items ≡ item ∷ []) }
{
    let mut items = List::with_room(alloc, 1)?;
    items.push(item);
    Ok(items)
}

/// A list of none.
pub fn none<T>(alloc: Global) -> Result<List<T>, AllocError>
    ensures { IfOk result (λ l. l.items ≡ []) }
{
    List::with_room(alloc, 0)
}
