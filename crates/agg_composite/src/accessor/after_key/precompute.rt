//! After keys on the numbers of columns of their own class, and Null on those of any column.
ghost use Rattle.std.specs.Prelude.{◌≡◌, ℕ};
ghost use Rattle.agg_values.specs.KeyOrder.{key_order};
ghost use Rattle.agg_segment.specs.storage.Columns.{StandsForKey, encoded_key};
ghost use Rattle.agg_segment.specs.declared.storage.keys.ColumnKeys.{ColumnKeys};
ghost use Rattle.agg_segment.specs.declared.storage.keys.ColumnKeys.TheVariants.{Signed};
ghost use Rattle.agg_composite.specs.accessor.AfterKey.{projected_side};
ghost use Rattle.agg_composite.specs.accessor.Classes.{HasClassOf, IsNumberOrNull};
ghost use Rattle.agg_composite.specs.accessor.Places.{IsPlaceOf};

use super::PrecomputedAfterKey;
use agg_segment::{Column, ColumnType};
use agg_values::{
    Address, CompositeIntermediateKey, MissingOrder, Order, ProjectedNumber, Text, i64_to_u64,
    u64_to_i64,
};

/// A place above or below all numbers, so that each comes before Null or after it.
pub fn precompute_null(missing_order: MissingOrder, order: Order) -> PrecomputedAfterKey
    ensures { (keys : ColumnKeys) (number : ℕ)
        → projected_side order result number
        ≡ key_order order missing_order (encoded_key keys number) CompositeIntermediateKey.Null }
{
    match (missing_order, order) {
        (MissingOrder::First, Order::Desc) | (MissingOrder::Last, Order::Asc) => {
            PrecomputedAfterKey::AfterLast
        }
        (MissingOrder::First, Order::Asc)
        | (MissingOrder::Last, Order::Desc)
        | (MissingOrder::Default, _) => PrecomputedAfterKey::Next(0),
    }
}

/// The place of a number or Null among the starts of a histogram, which are encoded as numbers of
/// an I64 column.
pub fn precompute_among_starts(
    key: &CompositeIntermediateKey,
    missing_order: MissingOrder,
    order: Order,
) -> PrecomputedAfterKey
    requires { IsNumberOrNull key.now }
    ensures { (number : ℕ) → StandsForKey Signed number
        → projected_side order result number
        ≡ key_order order missing_order (encoded_key Signed number) key.now }
{
    match key {
        CompositeIntermediateKey::I64(number) => {
            PrecomputedAfterKey::from(ProjectedNumber::Exact(*number))
        }
        CompositeIntermediateKey::U64(number) => PrecomputedAfterKey::from(u64_to_i64(*number)),
        CompositeIntermediateKey::Null => precompute_null(missing_order, order),
        // By the condition, the key is a number or Null.
        _ => unreachable!(),
    }
}

/// The place of a key that is of the column's class.
pub fn precompute_in_class(column: &Column, key: &CompositeIntermediateKey) -> PrecomputedAfterKey
    requires { HasClassOf column.now.keys key.now }
    ensures { IsPlaceOf column.now.keys key.now result }
{
    match key {
        CompositeIntermediateKey::Bool(value) => PrecomputedAfterKey::Exact(*value as u64),
        CompositeIntermediateKey::Str(text) => precompute_text(column, text),
        CompositeIntermediateKey::I64(number) => precompute_i64(column, *number),
        CompositeIntermediateKey::U64(number) => precompute_u64(column, *number),
        CompositeIntermediateKey::IpAddr(address) => precompute_address(column, *address),
        CompositeIntermediateKey::DateTime(time) => precompute_date(*time),
        // Null has no class, so by the condition the key is another.
        CompositeIntermediateKey::Null => unreachable!(),
    }
}

// A text among the ordinals of a dictionary.
fn precompute_text(column: &Column, text: &Text) -> PrecomputedAfterKey
    requires { HasClassOf column.now.keys (CompositeIntermediateKey.Str text.now) }
    ensures { IsPlaceOf column.now.keys (CompositeIntermediateKey.Str text.now) result }
{
    PrecomputedAfterKey::from(column.term_ord_or_next(text))
}

// An address among the ordinals of a list.
fn precompute_address(column: &Column, address: Address) -> PrecomputedAfterKey
    requires { HasClassOf column.now.keys (CompositeIntermediateKey.IpAddr address) }
    ensures { IsPlaceOf column.now.keys (CompositeIntermediateKey.IpAddr address) result }
{
    PrecomputedAfterKey::from(column.address_or_next(address))
}

// A signed number among those of a column of numbers.
fn precompute_i64(column: &Column, number: i64) -> PrecomputedAfterKey
    requires { HasClassOf column.now.keys (CompositeIntermediateKey.I64 number) }
    ensures { IsPlaceOf column.now.keys (CompositeIntermediateKey.I64 number) result }
{
    match column.column_type() {
        ColumnType::U64 => PrecomputedAfterKey::from(i64_to_u64(number)),
        _ => PrecomputedAfterKey::from(ProjectedNumber::Exact(number)),
    }
}

// An unsigned number among those of a column of numbers.
fn precompute_u64(column: &Column, number: u64) -> PrecomputedAfterKey
    requires { HasClassOf column.now.keys (CompositeIntermediateKey.U64 number) }
    ensures { IsPlaceOf column.now.keys (CompositeIntermediateKey.U64 number) result }
{
    match column.column_type() {
        ColumnType::U64 => PrecomputedAfterKey::from(ProjectedNumber::Exact(number)),
        _ => PrecomputedAfterKey::from(u64_to_i64(number)),
    }
}

// A date among those of any column of dates.
fn precompute_date(time: i64) -> PrecomputedAfterKey
    ensures { (keys : ColumnKeys) → HasClassOf keys (CompositeIntermediateKey.DateTime time)
        → IsPlaceOf keys (CompositeIntermediateKey.DateTime time) result }
{
    PrecomputedAfterKey::from(ProjectedNumber::Exact(time))
}
