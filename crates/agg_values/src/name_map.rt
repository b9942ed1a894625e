ghost use Rattle.std.specs.Prelude.{◌≡◌, ◌==◌, ℕ, List, [], length, IfOk, IfSome, OnOk, OnErr};
ghost use Rattle.std.specs.Prelude.{option_map};
ghost use Rattle.std.specs.List.{IsAmong};
ghost use Rattle.std.specs.List.Sorted.{IsStrictlySortedBy};
ghost use Rattle.std.specs.Map.{keys_of, values_of};
ghost use Rattle.std_collections.specs.Layout.BTreeMap.{seek};
ghost use Rattle.std_collections.specs.Map.Iter.{ShowsValuesInOrder, deref_pair};
ghost use Rattle.agg_values.specs.Names.{name_cmp, value_of, put, without};

use crate::{NameEntries, NameKeys, OutOfMemory, Text, room};
use std::alloc::Global;
use std::cmp::Ordering;
use std::marker::Model;
use std::mem;

/// An ordered map from names, seen by contracts as its entries in the order of their names. It
/// takes room for one entry at first.
#[derive(Drop)]
pub struct NameMap<T> {
    entries: Vec<(Text, T)>,
}

impl<T> Model for NameMap<T> {
    ghost use Rattle.std.specs.Prelude.{List, ℕ};
    ghost use Rattle.std.specs.Coded.{coded_list, coded×, coded_ℕ};
    ghost use Rattle.std.specs.List.Sorted.{IsStrictlySortedBy};
    ghost use Rattle.std.specs.Map.{keys_of};
    ghost use Rattle.agg_values.specs.Names.{Named, name_cmp};

    ghost Value = { Named T };

    ghost coded = { coded_list (coded× (coded_list coded_ℕ) T.code) };

    ghost view = { λ map. map.entries.items };

    ghost invariant = { λ map. IsStrictlySortedBy name_cmp (keys_of map.entries.items) };
}

impl<T> NameMap<T> {
    /// The empty map.
    pub fn new(alloc: Global) -> NameMap<T>
        ensures { result ≡ [] }
    {
        NameMap {
            entries: Vec::new(alloc),
        }
    }

    /// The empty map, with room for some names.
    pub fn with_capacity(alloc: Global, capacity: usize) -> Result<NameMap<T>, OutOfMemory>
        ensures { IfOk result (λ map. map ≡ []) }
    {
        Ok(NameMap {
            entries: Vec::with_capacity(alloc, capacity)?,
        })
    }

    /// The allocator that the map was made with.
    pub fn allocator(&self) -> Global {
        *self.entries.allocator()
    }

    /// The value of a name, None exactly where it has none.
    pub fn get(&self, name: &Text) -> Option<&T>
        ensures value { option_map (λ v. v.now) result ≡ value_of name.now self.now }
        ensures member { IfSome result (λ v. IsAmong (values_of self.now) v.now) }
    {
        match place_of(&self.entries, name) {
            Ok(at) => Some(&self.entries[at].1),
            Err(_) => None,
        }
    }

    /// The number of names.
    pub fn len(&self) -> usize
        ensures len { result ≡ length self.now }
        ensures ascending { IsStrictlySortedBy name_cmp (keys_of self.now) }
    {
        self.entries.len()
    }

    /// Whether there are no names.
    pub fn is_empty(&self) -> bool
        ensures { result ≡ (length self.now == 0) }
    {
        self.entries.is_empty()
    }

    /// The names, ascending.
    pub fn keys(&self) -> NameKeys<'_, T>
        ensures names { result ≡ keys_of self.now }
        ensures ascending { IsStrictlySortedBy name_cmp (keys_of self.now) }
    {
        NameKeys {
            entries: self.iter(),
        }
    }

    /// The names with their values, ascending by name.
    pub fn iter(&self) -> NameEntries<'_, T>
        ensures entries { result ≡ self.now }
        ensures values_in_order { ShowsValuesInOrder (deref_pair {K = List ℕ} {X = T}) }
        ensures ascending { IsStrictlySortedBy name_cmp (keys_of self.now) }
    {
        NameEntries {
            rest: self.entries.as_slice(),
        }
    }
}

impl<T: Drop> NameMap<T> {
    /// Sets the value of a name, and gives the old one, if any.
    pub fn insert(&mut self, name: Text, value: T) -> Result<Option<T>, OutOfMemory>
        ensures old { IfOk result (λ old. old ≡ value_of name self.old) }
        ensures ok { OnOk result (self.new ≡ put name value self.old) }
        ensures err { OnErr result (self.new ≡ self.old) }
    {
        match place_of(&self.entries, &name) {
            Ok(at) => Ok(Some(mem::replace(&mut self.entries[at].1, value))),
            Err(at) => {
                room::insert(&mut self.entries, at, (name, value))?;
                Ok(None)
            }
        }
    }

    /// Takes out the value of a name, None exactly where it has none.
    pub fn remove(&mut self, name: &Text) -> Option<T>
        ensures value { result ≡ value_of name.now self.old }
        ensures rest { self.new ≡ without name.now self.old }
    {
        match place_of(&self.entries, name) {
            Ok(at) => {
                let (_, value) = self.entries.remove(at);
                Some(value)
            }
            Err(_) => None,
        }
    }
}

// Where the name is, or where it would go.
fn place_of<T>(entries: &[(Text, T)], name: &Text) -> Result<usize, usize>
    requires { IsStrictlySortedBy name_cmp (keys_of entries.now) }
    ensures { result ≡ seek (name_cmp name.now) entries.now }
{
    let mut low = 0;
    let mut high = entries.len();
    while low < high {
        let mid = low + (high - low) / 2;
        match entries[mid].0.cmp(name) {
            Ordering::Less => low = mid + 1,
            Ordering::Equal => return Ok(mid),
            Ordering::Greater => high = mid,
        }
    }
    Err(low)
}
