//! The tree of collectors.
use crate::collector_tree::FilterCollector;
use agg_cache::HighCardSubAggCache;
use agg_composite::SegmentCompositeCollector;
use agg_metric::SegmentMetricCollector;

/// The collectors of a request's aggregations in a segment, or of some of them. A node that has
/// others below it hands its documents on to these.
#[derive(Drop)]
pub enum SegmentCollectorTree<'s> {
    /// A composite, by its index in the data of composites, with what is below it.
    Composite(usize, SegmentCompositeCollector<HighCardSubAggCache>, Box<SegmentCollectorTree<'s>>),
    /// A filter, by its index in the data of filters, with what is below it.
    Filter(usize, FilterCollector, Box<SegmentCollectorTree<'s>>),
    /// A metric, by its index in the data of metrics.
    Metric(usize, SegmentMetricCollector<'s>),
    /// Several, side by side.
    Group(Vec<SegmentCollectorTree<'s>>),
}
