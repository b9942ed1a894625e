//! The lanes in which the keys of a source stand in a segment.
ghost use Rattle.std.specs.Prelude.{◌≡◌, ◌<◌, ◌≤◌, ◌^◌, length};
ghost use Rattle.agg_composite.specs.accessor.Lanes.{lane_of, lanes};

use crate::accessor::CompositeAccessor;
use agg_request_tree::CompositeAggregationSource;

/// How many lanes a source has: one for each accessor, a histogram one for all.
pub fn count_of_lanes(
    source: &CompositeAggregationSource,
    accessors: &[CompositeAccessor<'_>],
) -> usize
    ensures lanes { result ≡ length (lanes source.now accessors.now) }
    ensures few { result < 2 ^ 63 }
{
    match source {
        CompositeAggregationSource::Histogram(_) => accessors.len().min(1),
        CompositeAggregationSource::Terms(_) | CompositeAggregationSource::DateHistogram(_) => {
            accessors.len()
        }
    }
}

/// The index of the lane of the accessor at an index.
pub fn lane_of(source: &CompositeAggregationSource, index: usize) -> usize
    ensures lane { result ≡ lane_of source.now index }
    ensures bound { result ≤ index }
{
    match source {
        CompositeAggregationSource::Histogram(_) => 0,
        CompositeAggregationSource::Terms(_) | CompositeAggregationSource::DateHistogram(_) =>
            index,
    }
}
