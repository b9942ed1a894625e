ghost use Rattle.std.specs.Prelude.{◌≡◌, ◌<◌, ◌++◌, ◌∷◌, [], All, Err, Some, OnErr, OnOk};
ghost use Rattle.std.specs.Prelude.{length, take};
ghost use Rattle.std.specs.Borrow.{Lends, sem};
ghost use Rattle.std.specs.List.{insert, remove, slice_get};
ghost use Rattle.std.specs.List.Sorted.{IsStrictlySortedBy};
ghost use Rattle.std.specs.Map.{keys_of, values_of};
ghost use Rattle.std.specs.declared.cmp.Ordering.TheVariants.{Less};
ghost use Rattle.std_collections.specs.Layout.BTreeMap.{seek};
ghost use Rattle.std_collections.specs.Layout.Columns.{set_value_at};
ghost use Rattle.agg_values.specs.KeyOrder.{tuple_order};
ghost use Rattle.agg_values.specs.contracts.tuple_map.tuple_map.TupleMap.{the_row};

use crate::tuple_map::tuple_order::tuple_ordering;
use crate::{MissingOrder, Order, OutOfMemory, Tuple};
use std::alloc::Global;
use std::cmp::Ordering;
use std::marker::Model;

/// An ordered map from tuples, which ascend by the order and missing order of each source.
/// Contracts see these orders and the entries.
#[derive(Drop)]
pub struct TupleMap<T> {
    orders: Vec<(Order, MissingOrder)>,
    entries: Vec<(Tuple, T)>,
}

impl<T> Model for TupleMap<T> {
    ghost use Rattle.std.specs.List.Sorted.{IsStrictlySortedBy};
    ghost use Rattle.std.specs.Map.{keys_of};
    ghost use Rattle.agg_values.specs.KeyOrder.{tuple_order};
    ghost use Rattle.agg_values.specs.tuple_map.TupleMap.{ByTuple, by_tuple_coded};

    ghost Value = { ByTuple T };

    ghost coded = { by_tuple_coded T.code };

    ghost view = { λ map. (map.orders.items, map.entries.items) };

    ghost invariant = { λ map. IsStrictlySortedBy (tuple_order map.orders.items)
        (keys_of map.entries.items) };
}

impl<T> TupleMap<T> {
    /// The empty map over no source.
    pub fn new(alloc: Global) -> TupleMap<T>
        ensures { result ≡ ([], []) }
    {
        TupleMap {
            orders: Vec::new(alloc),
            entries: Vec::new(alloc),
        }
    }

    /// The allocator that the map was made with.
    pub fn allocator(&self) -> Global {
        *self.entries.allocator()
    }

    /// The order and missing order of each source.
    pub fn orders(&self) -> &[(Order, MissingOrder)]
        ensures { result.now ≡ self.now.0 }
    {
        self.orders.as_slice()
    }

    /// The entries, ascending.
    pub fn entries(&self) -> &[(Tuple, T)]
        ensures entries { result.now ≡ self.now.1 }
        ensures ascending { IsStrictlySortedBy (tuple_order self.now.0) (keys_of self.now.1) }
    {
        self.entries.as_slice()
    }

    /// The map of these orders and entries.
    pub fn from_parts(orders: Vec<(Order, MissingOrder)>, entries: Vec<(Tuple, T)>) -> TupleMap<T>
        requires { IsStrictlySortedBy (tuple_order orders.items) (keys_of entries.items) }
        ensures { result ≡ (orders.items, entries.items) }
    {
        TupleMap { orders, entries }
    }

    /// The orders and the entries.
    pub fn into_parts(self) -> (Vec<(Order, MissingOrder)>, Vec<(Tuple, T)>)
        ensures orders { result.0.items ≡ self.0 }
        ensures entries { result.1.items ≡ self.1 }
        ensures ascending { IsStrictlySortedBy (tuple_order self.0) (keys_of self.1) }
    {
        let TupleMap { orders, entries } = self;
        (orders, entries)
    }

    /// The number of entries.
    pub fn len(&self) -> usize
        ensures { result ≡ length self.now.1 }
    {
        self.entries.len()
    }

    /// Where a tuple is, or where it would go. A tuple after the last is found at once.
    pub fn search(&self, key: &Tuple) -> Result<usize, usize>
        ensures place { result ≡ seek (tuple_order self.now.0 key.now) self.now.1 }
        ensures ascending { IsStrictlySortedBy (tuple_order self.now.0) (keys_of self.now.1) }
    {
        place_of(&self.orders, &self.entries, key)
    }

    /// The value at a place.
    pub fn value_mut(&mut self, at: usize) -> &mut T
        requires { at < length self.now.1 }
        ensures* writes_back { sem 𝓛 (Lends (the_row T.row) T.row self.entry result
            (λ w. (self.old.0, set_value_at self.old.1 at w))) }
        ensures value { slice_get (values_of self.old.1) at ≡ Some result.now }
    {
        let entry = &mut self.entries[at];
        &mut entry.1
    }
}

impl<T: Drop> TupleMap<T> {
    /// Appends the order of one more source.
    pub fn add_order(
        &mut self,
        order: Order,
        missing_order: MissingOrder,
    ) -> Result<(), OutOfMemory>
        requires empty { self.now.1 ≡ [] }
        ensures ok { OnOk result (self.new ≡ (self.old.0 ++ (order, missing_order) ∷ [], [])) }
        ensures err { OnErr result (self.new ≡ self.old) }
    {
        self.orders.push((order, missing_order))?;
        Ok(())
    }

    /// Makes room for so many more entries.
    pub fn reserve(&mut self, additional: usize) -> Result<(), OutOfMemory>
        ensures { self.new ≡ self.old }
    {
        self.entries.reserve(additional)?;
        Ok(())
    }

    /// Puts a tuple with its value in the place where it would go.
    pub fn insert(&mut self, at: usize, key: Tuple, value: T) -> Result<(), OutOfMemory>
        requires { seek (tuple_order self.now.0 key) self.now.1 ≡ Err at }
        ensures ok { OnOk result (self.new ≡ (self.old.0, insert self.old.1 at (key, value))) }
        ensures err { OnErr result (self.new ≡ self.old) }
    {
        self.entries.insert(at, (key, value))?;
        Ok(())
    }

    /// Puts a tuple with its value above all that are held.
    pub fn push_last(&mut self, key: Tuple, value: T) -> Result<(), OutOfMemory>
        requires { All (λ k. tuple_order self.now.0 k key ≡ Less) (keys_of self.now.1) }
        ensures ok { OnOk result (self.new ≡ (self.old.0, self.old.1 ++ (key, value) ∷ [])) }
        ensures err { OnErr result (self.new ≡ self.old) }
    {
        self.entries.push((key, value))?;
        Ok(())
    }

    /// Removes the entry of a place.
    pub fn remove(&mut self, at: usize)
        requires { at < length self.now.1 }
        ensures { self.new ≡ (self.old.0, remove self.old.1 at) }
    {
        self.entries.remove(at);
    }

    /// Keeps the lowest entries, as many as this.
    pub fn truncate(&mut self, len: usize)
        ensures { self.new ≡ (self.old.0, take len self.old.1) }
    {
        self.entries.truncate(len);
    }
}

// Where a tuple is, or where it would go. The last entry is looked at first.
fn place_of<T>(
    orders: &[(Order, MissingOrder)],
    entries: &[(Tuple, T)],
    key: &Tuple,
) -> Result<usize, usize>
    requires { IsStrictlySortedBy (tuple_order orders.now) (keys_of entries.now) }
    ensures { result ≡ seek (tuple_order orders.now key.now) entries.now }
{
    let mut low = 0;
    let mut high = entries.len();
    let mut probe = high.saturating_sub(1);
    while low < high {
        match tuple_ordering(orders, entries[probe].0.as_slice(), key.as_slice()) {
            Ordering::Less => low = probe + 1,
            Ordering::Equal => return Ok(probe),
            Ordering::Greater => high = probe,
        }
        probe = low + (high - low) / 2;
    }
    Err(low)
}
