//! Keys of any length, as they are stored.
ghost use Rattle.std.specs.Prelude.{◌≡◌, length, IfOk};
ghost use Rattle.std.specs.Cmp.Lexicographic.{pointwise, slice_cmp, slice_partial_cmp};
ghost use Rattle.std.specs.Cmp.Lexicographic.{lists_agrees, lists_equiv, lists_per, lists_po};
ghost use Rattle.std.specs.Cmp.Lexicographic.{lists_ties, lists_total};
ghost use Rattle.std.specs.Hash as fed;
ghost use Rattle.std.specs.Hash.{items_Alike};

use agg_values::OutOfMemory;
use std::alloc::Global;
use std::cmp::Ordering;
use std::hash::{Hash, Hasher};
use std::marker::Model;

/// The parts of a key, which contracts see as a list. Keys compare part by part.
#[derive(Drop)]
pub struct VecKey<K> {
    parts: Vec<K>,
}

impl<K> Model for VecKey<K> {
    ghost use Rattle.std.specs.Prelude.{List};

    ghost Value = { List K };

    ghost view = { λ k. k.parts.items };
}

impl<K: Copy> VecKey<K> {
    /// The key of these parts.
    pub fn new(alloc: Global, parts: &[K]) -> Result<VecKey<K>, OutOfMemory>
        ensures { IfOk result (λ key. key ≡ parts.now) }
    {
        let mut copy = Vec::with_capacity(alloc, parts.len())?;
        copy.extend_from_slice(parts)?;
        Ok(VecKey { parts: copy })
    }

    /// Other parts, as many, in the place of its own. This takes no memory.
    pub fn replace(&mut self, parts: &[K])
        requires { length self.old ≡ length parts.now }
        ensures { self.new ≡ parts.now }
    {
        self.parts.copy_from_slice(parts);
    }
}

impl<K> VecKey<K> {
    /// The parts.
    pub fn as_slice(&self) -> &[K]
        ensures { result.now ≡ self.now }
    {
        self.parts.as_slice()
    }

    /// The `Vec` of the parts, which are not copied.
    pub fn into_vec(self) -> Vec<K>
        ensures { result.items ≡ self }
    {
        let VecKey { parts } = self;
        parts
    }
}

impl<K: PartialEq> PartialEq for VecKey<K> {
    ghost eq = { λ v w. pointwise K.eq v w };

    ghost laws = { lists_per K.laws };

    fn eq(&self, other: &Self) -> bool {
        self.as_slice() == other.as_slice()
    }
}

impl<K: Eq> Eq for VecKey<K> {
    ghost laws = { lists_equiv K.Eq.laws };
}

impl<K: PartialOrd> PartialOrd for VecKey<K> {
    ghost partial_cmp = { λ v w. slice_partial_cmp K.partial_cmp v w };

    ghost laws = { lists_po K.PartialOrd.laws };

    fn partial_cmp(&self, other: &Self) -> Option<Ordering> {
        self.as_slice().partial_cmp(&other.as_slice())
    }
}

impl<K: Ord> Ord for VecKey<K> {
    ghost cmp = { λ v w. slice_cmp K.cmp v w };

    ghost total = { lists_total K.total };

    ghost matches_partial_cmp = { λ v w. lists_agrees K.matches_partial_cmp v w };

    ghost matches_eq = { λ v w. lists_ties K.cmp K.matches_eq v w };

    fn cmp(&self, other: &Self) -> Ordering {
        self.as_slice().cmp(&other.as_slice())
    }
}

impl<K: Hash> Hash for VecKey<K> {
    ghost hash_input = { λ v. fed.slice K.hash_input v };

    ghost respects_eq = { (items_Alike (record { fed = K.respects_eq })).fed };

    fn hash<H: Hasher>(&self, state: &mut H) {
        self.as_slice().hash(state);
    }
}
