//! The parts of a source's accessors: its columns in order, and its after value's place.
ghost use Rattle.std.specs.Prelude.{◌≡◌, ◌==◌, ◌<◌, ◌++◌, ℕ, [], ◌∷◌, Some, None, All, IfOk, OnOk};
ghost use Rattle.std.specs.Prelude.{count_by, length};
ghost use Rattle.std.specs.Ordering.{is_lt};
ghost use Rattle.agg_values.specs.Column.{class_of};
ghost use Rattle.agg_values.specs.KeyOrder.{key_order, null_side};
ghost use Rattle.agg_segment.specs.storage.Columns.{StandsForKey, encoded_key};
ghost use Rattle.agg_segment.specs.Segment.{Stored};
ghost use Rattle.agg_request_tree.specs.Faults.{IsOfOtherType};
ghost use Rattle.agg_request_tree.specs.Source.{min_of, order_of};
ghost use Rattle.agg_composite.specs.accessor.Accessors.{AreAccessorsOf, AreOfField, IsAccessorOf};
ghost use Rattle.agg_composite.specs.accessor.Accessors.{IsDivisionOf, accessors_before};
ghost use Rattle.agg_composite.specs.accessor.Accessors.{columns_read, side_to};
ghost use Rattle.agg_composite.specs.accessor.AfterKey.{projected_side};
ghost use Rattle.agg_composite.specs.accessor.Classes.{is_of_class_before};
ghost use Rattle.agg_composite.specs.accessor.Least.{AreLeastIn};
ghost use Rattle.agg_composite.specs.accessor.Lanes.{column_at, columns_of, in_requested, keys_at};
ghost use Rattle.agg_composite.specs.accessor.Lanes.{lanes};

use super::{CompositeAccessor, CompositeSourceAccessors};
use crate::accessor::PrecomputedAfterKey;
use crate::accessor::after_key::precompute_among_starts;
use crate::accessor::lanes::lane_of;
use agg_calendar::PrecomputedDateInterval;
use agg_request_tree::CompositeAggregationSource;
use agg_segment::Column;
use agg_values::{
    ColumnPaginationOrder, CompositeIntermediateKey, ItemList, MissingOrder, Order, OutOfMemory,
    composite_intermediate_key_ordering,
};
use std::alloc::Global;
use std::cmp::Ordering;

/// An accessor for each column that a source reads, in the requested order of the columns, which
/// ascend.
pub fn in_requested_order<'s>(
    alloc: Global,
    columns: &'s [Column],
    source: &CompositeAggregationSource,
    division: (PrecomputedDateInterval, i64),
) -> Result<ItemList<CompositeAccessor<'s>>, OutOfMemory>
    requires { IsDivisionOf source.now division.0 division.1 }
    ensures columns { IfOk result (λ accessors.
        in_requested (order_of source.now) (columns_of accessors)
        ≡ columns_read source.now columns.now) }
    ensures each { IfOk result (λ accessors. All (IsAccessorOf source.now) accessors) }
{
    let mut accessors = accessors_of(alloc, columns, source, division)?;
    match source.order() {
        Order::Asc => Ok(ItemList::from_vec(accessors)),
        Order::Desc => {
            accessors.reverse();
            Ok(ItemList::from_vec(accessors))
        }
    }
}

// An accessor for each column that a source reads.
fn accessors_of<'s>(
    alloc: Global,
    columns: &'s [Column],
    source: &CompositeAggregationSource,
    division: (PrecomputedDateInterval, i64),
) -> Result<Vec<CompositeAccessor<'s>>, OutOfMemory>
    requires { IsDivisionOf source.now division.0 division.1 }
    ensures columns { IfOk result (λ accessors.
        columns_of accessors.items ≡ columns_read source.now columns.now) }
    ensures each { IfOk result (λ accessors. All (IsAccessorOf source.now) accessors.items) }
{
    let mut accessors = Vec::with_capacity(alloc, columns.len())?;
    for column in columns {
        push_if_read(&mut accessors, column, source, division)?;
    }
    Ok(accessors)
}

// Appends the accessor of a column if a source reads it.
fn push_if_read<'s>(
    accessors: &mut Vec<CompositeAccessor<'s>>,
    column: &'s Column,
    source: &CompositeAggregationSource,
    division: (PrecomputedDateInterval, i64),
) -> Result<(), OutOfMemory>
    requires division { IsDivisionOf source.now division.0 division.1 }
    requires each { All (IsAccessorOf source.now) accessors.old.items }
    ensures columns { OnOk result (columns_of accessors.new.items
        ≡ columns_of accessors.old.items ++ columns_read source.now (column.now ∷ [])) }
    ensures each { OnOk result (All (IsAccessorOf source.now) accessors.new.items) }
{
    if !source.reads(column.column_pagination_order()) {
        return Ok(());
    }
    let (interval, offset_ns) = division;
    accessors.push(CompositeAccessor {
        column,
        date_histogram_interval: interval,
        date_offset_ns: offset_ns,
    })?;
    Ok(())
}

/// Accessors without an after value: every key comes after the start.
pub fn from_the_start<'s>(
    accessors: ItemList<CompositeAccessor<'s>>,
    min: ItemList<PrecomputedAfterKey>,
    order: Order,
) -> CompositeSourceAccessors<'s>
    ensures { (segment : Stored) (source : CompositeAggregationSource) → order_of source ≡ order
        → AreOfField segment source accessors.entry
        → AreLeastIn (min_of source) accessors.entry min
        → AreAccessorsOf segment source None result }
{
    let after_key = match order {
        Order::Asc => PrecomputedAfterKey::Next(0),
        Order::Desc => PrecomputedAfterKey::AfterLast,
    };
    CompositeSourceAccessors {
        accessors,
        min,
        after_key,
        after_key_accessor_idx: 0,
        skip_missing: false,
        is_after_key_explicit_missing: false,
    }
}

/// Accessors that go on from an after value.
pub fn going_on<'s>(
    accessors: ItemList<CompositeAccessor<'s>>,
    min: ItemList<PrecomputedAfterKey>,
    source: &CompositeAggregationSource,
    after: &CompositeIntermediateKey,
) -> CompositeSourceAccessors<'s>
    requires { ¬ (IsOfOtherType source.now after.now) }
    ensures { (segment : Stored) → AreOfField segment source.now accessors.entry
        → AreLeastIn (min_of source.now) accessors.entry min
        → AreAccessorsOf segment source.now (Some after.now) result }
{
    let before = count_before(accessors.as_slice(), source, after);
    let after_key_accessor_idx = lane_of(source, before);
    let after_key = after_key_at(accessors.as_slice(), after_key_accessor_idx, source, after);
    CompositeSourceAccessors {
        accessors,
        min,
        after_key,
        after_key_accessor_idx,
        skip_missing: null_comes_before(source, after),
        is_after_key_explicit_missing: after.column_pagination_order().is_none(),
    }
}

// Whether Null comes before an after value.
fn null_comes_before(source: &CompositeAggregationSource, after: &CompositeIntermediateKey) -> bool
    ensures { result
        ≡ is_lt (side_to source.now (Some after.now) CompositeIntermediateKey.Null) }
{
    let null = CompositeIntermediateKey::Null;
    let (order, missing_order) = (source.order(), source.missing_order());
    composite_intermediate_key_ordering(&null, after, order, missing_order) == Ordering::Less
}

// How many accessors have only keys that come before an after value.
fn count_before(
    accessors: &[CompositeAccessor<'_>],
    source: &CompositeAggregationSource,
    after: &CompositeIntermediateKey,
) -> usize
    ensures { result ≡ accessors_before source.now after.now accessors.now }
{
    match after.column_pagination_order() {
        Some(class) => count_of_classes_before(accessors, source.order(), class),
        None if null_is_last(source.order(), source.missing_order()) => accessors.len(),
        None => 0,
    }
}

fn null_is_last(order: Order, missing_order: MissingOrder) -> bool
    ensures { result ≡ (null_side order missing_order == 2) }
{
    match (missing_order, order) {
        (MissingOrder::First, _) | (MissingOrder::Default, Order::Asc) => false,
        (MissingOrder::Last, _) | (MissingOrder::Default, Order::Desc) => true,
    }
}

// How many accessors are of classes before a class.
fn count_of_classes_before(
    accessors: &[CompositeAccessor<'_>],
    order: Order,
    class: ColumnPaginationOrder,
) -> usize
    ensures { (key : CompositeIntermediateKey) → class_of key ≡ Some class
        → result ≡ count_by (λ a. is_of_class_before order key a.column.now.keys) accessors.now }
{
    let mut before = 0;
    for accessor in accessors {
        if comes_before(accessor, order, class) {
            before += 1;
        }
    }
    before
}

// Whether the class of an accessor's keys comes before a class.
fn comes_before(
    accessor: &CompositeAccessor<'_>,
    order: Order,
    class: ColumnPaginationOrder,
) -> bool
    ensures { (key : CompositeIntermediateKey) → class_of key ≡ Some class
        → result ≡ is_of_class_before order key accessor.now.column.now.keys }
{
    match order {
        Order::Asc => accessor.cmp_class(class) == Ordering::Less,
        Order::Desc => accessor.cmp_class(class) == Ordering::Greater,
    }
}

// Where an after value stands in the lane at an index, if there is one.
fn after_key_at(
    accessors: &[CompositeAccessor<'_>],
    index: usize,
    source: &CompositeAggregationSource,
    after: &CompositeIntermediateKey,
) -> PrecomputedAfterKey
    requires { ¬ (IsOfOtherType source.now after.now) }
    ensures { (number : ℕ) → index < length (lanes source.now accessors.now)
        → StandsForKey (keys_at source.now accessors.now index) number
        → projected_side (order_of source.now) result number
        ≡ side_to source.now (Some after.now)
        (encoded_key (keys_at source.now accessors.now index) number) }
{
    let (order, missing_order) = (source.order(), source.missing_order());
    match source {
        CompositeAggregationSource::Histogram(_) => {
            precompute_among_starts(after, missing_order, order)
        }
        CompositeAggregationSource::Terms(_) | CompositeAggregationSource::DateHistogram(_) => {
            after_key_in_column(accessors, index, after, missing_order, order)
        }
    }
}

// Where an after value stands in the column of the accessor at an index, if there is one.
fn after_key_in_column(
    accessors: &[CompositeAccessor<'_>],
    index: usize,
    after: &CompositeIntermediateKey,
    missing_order: MissingOrder,
    order: Order,
) -> PrecomputedAfterKey
    ensures { (number : ℕ) → index < length accessors.now
        → StandsForKey (column_at accessors.now index) number
        → projected_side order result number
        ≡ key_order order missing_order (encoded_key (column_at accessors.now index) number)
        after.now }
{
    match accessors.get(index) {
        Some(accessor) => PrecomputedAfterKey::precompute(accessor, after, missing_order, order),
        None => PrecomputedAfterKey::AfterLast,
    }
}
