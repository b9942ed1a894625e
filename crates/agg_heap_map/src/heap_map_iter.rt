use crate::vec_key::VecKey;
use std::collections::hash_map::IntoIter;
use std::marker::Model;

/// The pairs of a map that are still to come, each once.
#[derive(Drop)]
pub struct HeapMapIter<K, V> {
    pub(crate) pairs: IntoIter<VecKey<K>, V>,
}

impl<K, V> Model for HeapMapIter<K, V> {
    ghost use Rattle.std.specs.Prelude.{List};

    ghost Value = { List (List K × V) };

    ghost view = { λ i. i.pairs };
}

impl<K: Drop, V: Drop> Iterator for HeapMapIter<K, V> {
    ghost use Rattle.std.specs.Iterator.{YieldsFirstBy, item_count};

    type Item = (Vec<K>, V);

    ghost next_gives = { YieldsFirstBy (λ p. (p.0.items, p.1)) (λ rest. rest) };

    ghost remaining = { item_count (λ rest. rest) };

    fn next(&mut self) -> Option<(Vec<K>, V)> {
        let (key, value) = self.pairs.next()?;
        Some((key.into_vec(), value))
    }
}
