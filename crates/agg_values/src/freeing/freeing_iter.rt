ghost use Rattle.std.specs.Prelude.{◌≡◌, length};

use std::marker::Model;

// So many places may be empty at the end before any is given back.
const MOST_EMPTY: usize = 1_024;

/// The items of a list that are still to come. The memory of those that went is given back now and
/// then, an eighth at a time, so a long list never takes much more than what is left of it.
#[derive(Drop)]
pub struct FreeingIter<T> {
    last_first: Vec<T>,
}

impl<T> Model for FreeingIter<T> {
    ghost use Rattle.std.specs.Prelude.{List, reverse};

    ghost Value = { List T };

    ghost view = { λ iter. reverse iter.last_first.items };
}

impl<T> FreeingIter<T> {
    /// All items of a list, which are not copied.
    pub fn new(items: Vec<T>) -> FreeingIter<T>
        ensures { result ≡ items.items }
    {
        let mut last_first = items;
        last_first.reverse();
        FreeingIter { last_first }
    }

    /// How many items are still to come.
    pub fn len(&self) -> usize
        ensures { result ≡ length self.now }
    {
        self.last_first.len()
    }
}

impl<T: Drop> Iterator for FreeingIter<T> {
    ghost use Rattle.std.specs.Iterator.{YieldsFirst, item_count};

    type Item = T;

    ghost next_gives = { YieldsFirst (λ rest. rest) };

    ghost remaining = { item_count (λ rest. rest) };

    fn next(&mut self) -> Option<T> {
        let item = self.last_first.pop()?;
        let empty = self.last_first.capacity() - self.last_first.len();
        if empty >= MOST_EMPTY && empty >= self.last_first.capacity() / 8 {
            self.last_first.shrink_to_fit();
        }
        Some(item)
    }
}
