//! The values that a tuple may take for a source.
ghost use Rattle.std.specs.Prelude.{◌≡◌};
ghost use Rattle.agg_composite.specs.accessor.Accessors.{side_at};
ghost use Rattle.agg_composite.specs.accessor.AfterKey.{projected_side};
ghost use Rattle.agg_composite.specs.Choices.{missing_standing, null_choice};

use crate::accessor::{CompositeSourceAccessors, Encoded, PrecomputedAfterKey, count_of_lanes};
use agg_request_tree::CompositeAggregationSource;
use agg_values::Order;
use std::cmp::Ordering;

/// A value that a tuple may take for a source, and how its key stands to the source's after value:
/// Greater where there is none.
#[derive(Clone, Copy, Debug)]
pub struct Choice {
    pub value: Encoded,
    pub side: Ordering,
}

/// How a number of the lane at an index stands to the after value.
pub fn side_of(
    order: Order,
    accessors: &CompositeSourceAccessors<'_>,
    index: usize,
    number: u64,
) -> Ordering
    ensures { result ≡ side_at order accessors.now index number }
{
    match index.cmp(&accessors.after_key_accessor_idx) {
        Ordering::Less => Ordering::Less,
        Ordering::Equal => side_in(order, &accessors.after_key, number),
        Ordering::Greater => Ordering::Greater,
    }
}

/// How a number of the lane that the after value stands in stands to it.
pub fn side_in(order: Order, after_key: &PrecomputedAfterKey, number: u64) -> Ordering
    ensures { result ≡ projected_side order after_key.now number }
{
    if after_key.equals(number) {
        return Ordering::Equal;
    }
    let comes_before = match order {
        Order::Asc => after_key.gt(number),
        Order::Desc => after_key.lt(number),
    };
    if comes_before {
        Ordering::Less
    } else {
        Ordering::Greater
    }
}

/// Null, for a document without a value.
pub fn missing_choice(
    source: &CompositeAggregationSource,
    accessors: &CompositeSourceAccessors<'_>,
) -> Choice
    ensures { result ≡ null_choice source.now accessors.now }
{
    let lanes = count_of_lanes(source, accessors.accessors.as_slice());
    Choice {
        value: Encoded::null(source.order(), source.missing_order(), lanes),
        side: missing_side(
            accessors.skip_missing,
            accessors.is_after_key_explicit_missing,
        ),
    }
}

// How Null stands to the after value.
fn missing_side(is_before: bool, is_after_value: bool) -> Ordering
    ensures { result ≡ missing_standing is_before is_after_value }
{
    if is_before {
        Ordering::Less
    } else if is_after_value {
        Ordering::Equal
    } else {
        Ordering::Greater
    }
}
