//! Tuples of keys, as buckets are stored by them.
ghost use Rattle.std.specs.Prelude.{◌≡◌, ◌<◌, ◌-◌, ◌++◌, ⊤, [], ◌∷◌, length, take};
ghost use Rattle.std.specs.Cmp.Lexicographic.{pointwise, slice_cmp, slice_partial_cmp};
ghost use Rattle.std.specs.Cmp.Lexicographic.{lists_agrees, lists_equiv, lists_per, lists_po};
ghost use Rattle.std.specs.Cmp.Lexicographic.{lists_ties, lists_total};
ghost use Rattle.std.specs.Hash as fed;
ghost use Rattle.std.specs.Hash.{items_Alike};

use arrayvec::ArrayVec;
use std::alloc::AllocError;
use std::cmp::Ordering;
use std::hash::{Hash, Hasher};
use std::marker::Model;

/// The keys of a tuple, at most `N`, which lie in the value itself. Contracts see their list.
#[derive(Drop)]
pub struct StoredTuple<K, const N: usize> {
    keys: ArrayVec<K, N>,
}

impl<K, const N: usize> Model for StoredTuple<K, N> {
    ghost use Rattle.std.specs.Prelude.{List};

    ghost Value = { List K };

    ghost view = { λ tuple. tuple.keys.items };
}

impl<K: Copy + Default, const N: usize> StoredTuple<K, N> {
    /// No keys.
    pub fn new() -> StoredTuple<K, N>
        ensures { result ≡ [] }
    {
        StoredTuple {
            keys: ArrayVec::new(),
        }
    }

    /// One more key.
    pub fn push(&mut self, key: K)
        requires { length self.old < N }
        ensures { self.new ≡ self.old ++ key ∷ [] }
    {
        self.keys.push(key);
    }

    /// Takes the last key away, if there is one.
    pub fn pop(&mut self)
        ensures { self.new ≡ take (length self.old - 1) self.old }
    {
        self.keys.pop();
    }
}

impl<K, const N: usize> StoredTuple<K, N> {
    /// The keys.
    pub fn as_slice(&self) -> &[K]
        ensures { result.now ≡ self.now }
    {
        self.keys.as_slice()
    }
}

impl<K: Copy + Default, const N: usize> Clone for StoredTuple<K, N> {
    ghost is_clone = { λ tuple clone. clone ≡ tuple };

    ghost is_infallible = { λ _. ⊤ };

    /// A copy of the keys.
    fn clone(&self) -> Result<StoredTuple<K, N>, AllocError> {
        let mut keys = ArrayVec::new();
        for key in self.keys.as_slice() {
            keys.push(*key);
        }
        Ok(StoredTuple { keys })
    }
}

impl<K: PartialEq, const N: usize> PartialEq for StoredTuple<K, N> {
    ghost eq = { λ t u. pointwise K.eq t u };

    ghost laws = { lists_per K.laws };

    fn eq(&self, other: &Self) -> bool {
        self.as_slice() == other.as_slice()
    }
}

impl<K: Eq, const N: usize> Eq for StoredTuple<K, N> {
    ghost laws = { lists_equiv K.Eq.laws };
}

impl<K: PartialOrd, const N: usize> PartialOrd for StoredTuple<K, N> {
    ghost partial_cmp = { λ t u. slice_partial_cmp K.partial_cmp t u };

    ghost laws = { lists_po K.PartialOrd.laws };

    fn partial_cmp(&self, other: &Self) -> Option<Ordering> {
        self.as_slice().partial_cmp(&other.as_slice())
    }
}

impl<K: Ord, const N: usize> Ord for StoredTuple<K, N> {
    ghost cmp = { λ t u. slice_cmp K.cmp t u };

    ghost total = { lists_total K.total };

    ghost matches_partial_cmp = { λ t u. lists_agrees K.matches_partial_cmp t u };

    ghost matches_eq = { λ t u. lists_ties K.cmp K.matches_eq t u };

    fn cmp(&self, other: &Self) -> Ordering {
        self.as_slice().cmp(&other.as_slice())
    }
}

impl<K: Hash, const N: usize> Hash for StoredTuple<K, N> {
    ghost hash_input = { λ t. fed.slice K.hash_input t };

    ghost respects_eq = { (items_Alike (record { fed = K.respects_eq })).fed };

    fn hash<H: Hasher>(&self, state: &mut H) {
        self.as_slice().hash(state);
    }
}
