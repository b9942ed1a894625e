//! Where a source's least value stands among the numbers of its columns.
ghost use Rattle.std.specs.Prelude.{Some, IfOk, option_map};
ghost use Rattle.agg_composite.specs.accessor.Least.{AreLeastIn, IsLeastIn};

use super::CompositeAccessor;
use crate::accessor::PrecomputedAfterKey;
use agg_values::{CompositeIntermediateKey, ItemList, MissingOrder, Order, OutOfMemory};
use std::alloc::Global;

/// Where a least value stands in the column of each accessor; no places where there is none.
pub fn least_places(
    alloc: Global,
    accessors: &[CompositeAccessor<'_>],
    min: Option<&CompositeIntermediateKey>,
) -> Result<ItemList<PrecomputedAfterKey>, OutOfMemory>
    ensures { IfOk result (AreLeastIn (option_map (λ k. k.now) min.entry) accessors.now) }
{
    match min {
        Some(least) => places_of(alloc, accessors, least),
        None => Ok(ItemList::new(alloc)),
    }
}

// Where a least value stands in the column of each accessor.
fn places_of(
    alloc: Global,
    accessors: &[CompositeAccessor<'_>],
    least: &CompositeIntermediateKey,
) -> Result<ItemList<PrecomputedAfterKey>, OutOfMemory>
    ensures { IfOk result (AreLeastIn (Some least.now) accessors.now) }
{
    let mut places = Vec::with_capacity(alloc, accessors.len())?;
    for accessor in accessors {
        places.push(place_of(accessor, least))?;
    }
    Ok(ItemList::from_vec(places))
}

// Where a least value stands in the column of an accessor.
fn place_of(
    accessor: &CompositeAccessor<'_>,
    least: &CompositeIntermediateKey,
) -> PrecomputedAfterKey
    ensures { IsLeastIn accessor.now.column.now.keys (Some least.now) result }
{
    PrecomputedAfterKey::precompute(accessor, least, MissingOrder::Default, Order::Asc)
}
