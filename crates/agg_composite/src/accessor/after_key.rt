//! After keys on the numbers of columns.
ghost use Rattle.std.specs.Prelude.{◌≡◌, ℕ};
ghost use Rattle.agg_segment.specs.storage.Columns.{StandsForKey, encoded_key};
ghost use Rattle.agg_values.specs.KeyOrder.{key_order};
ghost use Rattle.agg_composite.specs.accessor.AfterKey.{is_above, is_at, is_below, projected_side};
ghost use Rattle.agg_composite.specs.accessor.Places.{hit_place, signed_place, unsigned_place};

mod precompute;

use crate::accessor::CompositeAccessor;
use crate::accessor::numbers::moved_up;
use agg_segment::OrdHit;
use agg_values::{CompositeIntermediateKey, MissingOrder, Order, ProjectedNumber};
pub(crate) use precompute::precompute_among_starts;
use precompute::{precompute_in_class, precompute_null};
use std::cmp::Ordering;

/// Where an after key stands among the numbers of a column.
#[derive(Clone, Copy, Debug, PartialEq, Eq)]
pub enum PrecomputedAfterKey {
    /// At this number.
    Exact(u64),
    /// At no number; the first greater one is this.
    Next(u64),
    /// Above all numbers.
    AfterLast,
}

impl PrecomputedAfterKey {
    /// Whether it is at a number.
    pub fn equals(&self, column_value: u64) -> bool
        ensures { result ≡ is_at self.now column_value }
    {
        match self {
            PrecomputedAfterKey::Exact(value) => *value == column_value,
            _ => false,
        }
    }

    /// Whether it is above a number.
    pub fn gt(&self, column_value: u64) -> bool
        ensures { result ≡ is_above self.now column_value }
    {
        match self {
            PrecomputedAfterKey::Exact(value) | PrecomputedAfterKey::Next(value) => {
                *value > column_value
            }
            PrecomputedAfterKey::AfterLast => true,
        }
    }

    /// Whether it is below a number.
    pub fn lt(&self, column_value: u64) -> bool
        ensures { result ≡ is_below self.now column_value }
    {
        match self {
            PrecomputedAfterKey::Exact(value) => *value < column_value,
            PrecomputedAfterKey::Next(value) => *value <= column_value,
            PrecomputedAfterKey::AfterLast => false,
        }
    }

    /// Where an after key stands among the numbers of an accessor's column, so that each number,
    /// whether the column holds it or not, stands to it as the key of the number does to the after
    /// key.
    pub fn precompute(
        composite_accessor: &CompositeAccessor<'_>,
        source_after_key: &CompositeIntermediateKey,
        missing_order: MissingOrder,
        order: Order,
    ) -> PrecomputedAfterKey
        ensures { (number : ℕ) → StandsForKey composite_accessor.now.column.now.keys number
            → projected_side order result number
            ≡ key_order order missing_order
            (encoded_key composite_accessor.now.column.now.keys number) source_after_key.now }
    {
        let Some(class) = source_after_key.column_pagination_order() else {
            return precompute_null(missing_order, order);
        };
        match composite_accessor.cmp_class(class) {
            Ordering::Less => PrecomputedAfterKey::AfterLast,
            Ordering::Equal => precompute_in_class(composite_accessor.column, source_after_key),
            Ordering::Greater => PrecomputedAfterKey::Next(0),
        }
    }
}

impl From<OrdHit> for PrecomputedAfterKey {
    ghost from_gives = { λ hit place. place ≡ hit_place hit };

    /// The place at its ordinal.
    fn from(hit: OrdHit) -> PrecomputedAfterKey {
        match hit {
            OrdHit::Exact(ordinal) => PrecomputedAfterKey::Exact(ordinal),
            OrdHit::Next(ordinal) => PrecomputedAfterKey::Next(ordinal),
            OrdHit::AfterLast => PrecomputedAfterKey::AfterLast,
        }
    }
}

impl From<ProjectedNumber<u64>> for PrecomputedAfterKey {
    ghost from_gives = { λ number place. place ≡ unsigned_place number };

    /// The place among the numbers of a U64 column.
    fn from(number: ProjectedNumber<u64>) -> PrecomputedAfterKey {
        match number {
            ProjectedNumber::Exact(value) => PrecomputedAfterKey::Exact(value),
            ProjectedNumber::Next(value) => PrecomputedAfterKey::Next(value),
            ProjectedNumber::AfterLast => PrecomputedAfterKey::AfterLast,
        }
    }
}

impl From<ProjectedNumber<i64>> for PrecomputedAfterKey {
    ghost from_gives = { λ number place. place ≡ signed_place number };

    /// The place among the numbers of an I64 column, which have 2^63 added.
    fn from(number: ProjectedNumber<i64>) -> PrecomputedAfterKey {
        match number {
            ProjectedNumber::Exact(value) => PrecomputedAfterKey::Exact(moved_up(value)),
            ProjectedNumber::Next(value) => PrecomputedAfterKey::Next(moved_up(value)),
            ProjectedNumber::AfterLast => PrecomputedAfterKey::AfterLast,
        }
    }
}
