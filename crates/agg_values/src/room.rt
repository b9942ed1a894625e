//! Room for items. The first takes room for one, and later ones as a `Vec` grows.
ghost use Rattle.std.specs.Prelude.{◌≡◌, ◌≤◌, ◌<◌, [], ◌∷◌, ◌++◌, OnOk, OnErr};
ghost use Rattle.std.specs.List.{insert};
ghost use Rattle.std.specs.Vec.{vec_len, vec_capacity};

use crate::OutOfMemory;

/// Appends an item.
pub(crate) fn push<T: Drop>(items: &mut Vec<T>, item: T) -> Result<(), OutOfMemory>
    ensures ok { OnOk result (items.new.items ≡ items.old.items ++ item ∷ []) }
    ensures err { OnErr result (items.new.items ≡ items.old.items) }
{
    reserve_one(items)?;
    items.push(item)?;
    Ok(())
}

/// Puts an item in a place, before what stood there.
pub(crate) fn insert<T: Drop>(items: &mut Vec<T>, at: usize, item: T) -> Result<(), OutOfMemory>
    requires { at ≤ vec_len items.old }
    ensures ok { OnOk result (items.new.items ≡ insert items.old.items at item) }
    ensures err { OnErr result (items.new.items ≡ items.old.items) }
{
    reserve_one(items)?;
    items.insert(at, item)?;
    Ok(())
}

// Room for one more item.
fn reserve_one<T>(items: &mut Vec<T>) -> Result<(), OutOfMemory>
    ensures items { items.new.items ≡ items.old.items }
    ensures len { vec_len items.new ≡ vec_len items.old }
    ensures room { OnOk result (vec_len items.new < vec_capacity items.new) }
    ensures first { vec_capacity items.old ≡ 0 → OnOk result (vec_capacity items.new ≡ 1) }
{
    if items.is_empty() {
        items.reserve_exact(1)?;
    } else {
        items.reserve(1)?;
    }
    Ok(())
}
