ghost use Rattle.std.specs.Iterator.{YieldsFirstBy, YieldsFirstRef, item_count};

use crate::Text;
use std::marker::Model;

/// The names of a map with their values, ascending by name.
#[derive(Drop)]
pub struct NameEntries<'a, T> {
    pub(crate) rest: &'a [(Text, T)],
}

impl<'a, T> Model for NameEntries<'a, T> {
    ghost use Rattle.agg_values.specs.Names.{Named};

    ghost Value = { Named T };

    ghost view = { λ entries. entries.rest.now };
}

impl<'a, T> Iterator for NameEntries<'a, T> {
    type Item = (&'a Text, &'a T);

    ghost next_gives = { YieldsFirstBy (λ entry. (entry.0.now, entry.1.now)) (λ entries. entries) };

    ghost remaining = { item_count (λ entries. entries) };

    fn next(&mut self) -> Option<(&'a Text, &'a T)> {
        let (first, rest) = self.rest.split_first()?;
        self.rest = rest;
        Some((&first.0, &first.1))
    }
}

/// The names of a map, ascending.
#[derive(Drop)]
pub struct NameKeys<'a, T> {
    pub(crate) entries: NameEntries<'a, T>,
}

impl<'a, T> Model for NameKeys<'a, T> {
    ghost use Rattle.std.specs.Prelude.{List, ℕ};
    ghost use Rattle.std.specs.Map.{keys_of};

    ghost Value = { List (List ℕ) };

    ghost view = { λ names. keys_of names.entries };
}

impl<'a, T> Iterator for NameKeys<'a, T> {
    type Item = &'a Text;

    ghost next_gives = { YieldsFirstRef (λ names. names) };

    ghost remaining = { item_count (λ names. names) };

    fn next(&mut self) -> Option<&'a Text> {
        let (name, _) = self.entries.next()?;
        Some(name)
    }
}
