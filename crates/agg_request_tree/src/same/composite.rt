//! Whether two composites are the same.
ghost use Rattle.std.specs.Prelude.{◌≡◌, ◌↔◌, IsTrue};

use crate::{CompositeAggregation, CompositeAggregationSource};
use agg_values::{AfterKey, NameMap};

/// Whether two composites have the same sources, size and after keys.
pub(super) fn is_same_composite(
    composite: &CompositeAggregation,
    other: &CompositeAggregation,
) -> bool
    ensures { IsTrue result ↔ composite.now ≡ other.now }
{
    are_same_sources(composite.sources.as_slice(), other.sources.as_slice())
        && composite.size == other.size
        && are_same_keys(&composite.after, &other.after)
}

// Whether two lists have the same sources.
fn are_same_sources(
    sources: &[CompositeAggregationSource],
    others: &[CompositeAggregationSource],
) -> bool
    ensures { IsTrue result ↔ sources.now ≡ others.now }
{
    sources == others
}

// Whether two after keys have the same names with the same keys.
fn are_same_keys(after: &NameMap<AfterKey>, other: &NameMap<AfterKey>) -> bool
    ensures { IsTrue result ↔ after.now ≡ other.now }
{
    let mut others = other.iter();
    for entry in after.iter() {
        let Some(other) = others.next() else {
            return false;
        };
        if entry != other {
            return false;
        }
    }
    others.next().is_none()
}
