//! What containers take of a memory limit.
ghost use Rattle.std.specs.Prelude.{◌≡◌, ◌*◌, ◌-◌, ◌^◌, ℕ, length, min};

use std::collections::HashMap;
use std::hash::Hash;

/// A container that takes bytes of a memory limit.
pub trait MemoryConsumption {
    /// How many entries it has.
    ghost num_entries: { Self → ℕ };

    /// The bytes that it takes: 64 for each entry, at most u64::MAX.
    fn memory_consumption(&self) -> u64
        ensures { result ≡ min (64 * num_entries self.now) (2 ^ 64 - 1) };
}

impl<K: Eq + Hash, V> MemoryConsumption for HashMap<K, V> {
    ghost num_entries = { λ map. length map.entries };

    fn memory_consumption(&self) -> u64 {
        (self.len() as u64).saturating_mul(64)
    }
}
