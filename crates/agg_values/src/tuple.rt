ghost use Rattle.std.specs.Prelude.{◌≡◌, [], ◌∷◌, ◌++◌, OnOk, OnErr, IfOk};
ghost use Rattle.std.specs.Cmp.{partial_equiv_from_equiv};
ghost use Rattle.std.specs.Cmp.Lexicographic.{pointwise, lists_equiv};
ghost use Rattle.std.specs.Hash as fed;
ghost use Rattle.std.specs.Hash.{items_Alike};
ghost use Rattle.agg_values.specs.KeyLaws.equality as equality;
ghost use Rattle.agg_values.specs.KeyLaws.hashes as hashes;

use crate::{CompositeIntermediateKey, OutOfMemory};
use std::alloc::Global;
use std::hash::{Hash, Hasher};
use std::marker::Model;
use std::{mem, slice};

/// A list of keys, one for each source of a composite. One key alone takes no memory of its own.
#[derive(Debug, Drop)]
pub struct Tuple {
    alloc: Global,
    keys: Keys,
}

// One key, or any number of them.
#[derive(Debug, Drop)]
enum Keys {
    One(CompositeIntermediateKey),
    Many(Vec<CompositeIntermediateKey>),
}

impl Model for Tuple {
    ghost use Rattle.agg_values.specs.Tuple.{KeyTuple, key_list};

    ghost Value = { KeyTuple };

    ghost view = { λ tuple. key_list tuple.keys };
}

impl Tuple {
    /// The empty tuple.
    pub fn new(alloc: Global) -> Tuple
        ensures { result ≡ [] }
    {
        Tuple {
            alloc,
            keys: Keys::Many(Vec::new(alloc)),
        }
    }

    /// The empty tuple, with room for some keys.
    pub fn with_capacity(alloc: Global, capacity: usize) -> Result<Tuple, OutOfMemory>
        ensures { IfOk result (λ tuple. tuple ≡ []) }
    {
        let mut tuple = Tuple::new(alloc);
        if capacity > 1 {
            tuple.keys = Keys::Many(Vec::with_capacity(alloc, capacity)?);
        }
        Ok(tuple)
    }

    /// Appends a key.
    pub fn push(&mut self, key: CompositeIntermediateKey) -> Result<(), OutOfMemory>
        ensures ok { OnOk result (self.new ≡ self.old ++ key ∷ []) }
        ensures err { OnErr result (self.new ≡ self.old) }
    {
        match &mut self.keys {
            Keys::Many(keys) if keys.capacity() > 0 => keys.push(key)?,
            Keys::Many(_) => self.keys = Keys::One(key),
            Keys::One(held) => {
                let mut keys = Vec::with_capacity(self.alloc, 2)?;
                keys.push(mem::replace(held, CompositeIntermediateKey::Null))?;
                keys.push(key)?;
                self.keys = Keys::Many(keys);
            }
        }
        Ok(())
    }

    /// The keys.
    pub fn as_slice(&self) -> &[CompositeIntermediateKey]
        ensures { result.now ≡ self.now }
    {
        match &self.keys {
            Keys::One(key) => slice::from_ref(key),
            Keys::Many(keys) => keys.as_slice(),
        }
    }

    /// An equal tuple.
    pub fn try_clone(&self, alloc: Global) -> Result<Tuple, OutOfMemory>
        ensures { IfOk result (λ tuple. tuple ≡ self.now) }
    {
        let mut tuple = Tuple::with_capacity(alloc, self.as_slice().len())?;
        for key in self.as_slice() {
            tuple.push(key.try_clone(alloc)?)?;
        }
        Ok(tuple)
    }
}

impl PartialEq for Tuple {
    ghost eq = { pointwise ⟦<CompositeIntermediateKey as PartialEq>⟧.eq };

    ghost laws = { partial_equiv_from_equiv (lists_equiv equality.laws-law) };

    fn eq(&self, other: &Tuple) -> bool {
        self.as_slice() == other.as_slice()
    }
}

impl Eq for Tuple {
    ghost laws = { lists_equiv equality.laws-law };
}

impl Hash for Tuple {
    ghost hash_input = { fed.slice ⟦<CompositeIntermediateKey as Hash>⟧.hash_input };

    ghost respects_eq = { (items_Alike (record { fed = hashes.respects_eq-law })).fed };

    fn hash<H: Hasher>(&self, state: &mut H) {
        self.as_slice().hash(state);
    }
}
