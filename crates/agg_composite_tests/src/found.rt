//! What the accessors of a source say.
use crate::given::key;
use agg_composite::{CompositeAccessor, CompositeSourceAccessors, PrecomputedAfterKey};
use agg_request_tree::CompositeAggregationSource;
use agg_segment::{ColumnType, SegmentReader};
use agg_values::CompositeIntermediateKey;
use std::alloc::Global;
use std::test::Fail;

/// Where an after value stands: its place among numbers, the index of its lane, whether Null comes
/// before it, and whether it is Null.
pub(crate) type Standing = (PrecomputedAfterKey, usize, bool, bool);

/// After all numbers.
pub(crate) const ALL: PrecomputedAfterKey = PrecomputedAfterKey::AfterLast;

/// Before all numbers.
pub(crate) const NONE: PrecomputedAfterKey = PrecomputedAfterKey::Next(0);

/// Where an after value of a source stands.
pub(crate) fn standing(
    alloc: Global,
    segment: &SegmentReader,
    source: &CompositeAggregationSource,
    after: Option<&str>,
) -> Result<Standing, Fail> {
    match after {
        Some(text) => standing_of(alloc, segment, source, Some(&key(alloc, text)?)),
        None => standing_of(alloc, segment, source, None),
    }
}

// Where a key stands in a source, if there is one.
fn standing_of(
    alloc: Global,
    segment: &SegmentReader,
    source: &CompositeAggregationSource,
    after: Option<&CompositeIntermediateKey>,
) -> Result<Standing, Fail> {
    let built = CompositeSourceAccessors::build_for_source(alloc, segment, source, after)?;
    Ok((
        built.after_key,
        built.after_key_accessor_idx,
        built.skip_missing,
        built.is_after_key_explicit_missing,
    ))
}

/// The types of the columns that a source reads, in its order.
pub(crate) fn types(
    alloc: Global,
    segment: &SegmentReader,
    source: &CompositeAggregationSource,
) -> Result<Vec<ColumnType>, Fail> {
    let built = CompositeSourceAccessors::build_for_source(alloc, segment, source, None)?;
    types_of(alloc, built.accessors.as_slice())
}

fn types_of(alloc: Global, accessors: &[CompositeAccessor<'_>]) -> Result<Vec<ColumnType>, Fail> {
    let mut types = Vec::new(alloc);
    for accessor in accessors {
        types.push(accessor.column.column_type())?;
    }
    Ok(types)
}
