//! What the aggregations of a request are asked in a segment.
use crate::segment_context::AggRefNode;
use agg_composite::accessor::CompositeAggReqData;
use agg_filter::FilterAggReqData;
use agg_metric::MetricAggReqData;
use agg_values::ItemList;

/// What the aggregations of a request are asked in a segment, by kind, and the tree of them.
#[derive(Drop)]
pub struct PerRequestAggSegCtx<'s> {
    pub filter_req_data: ItemList<FilterAggReqData>,
    pub stats_metric_req_data: ItemList<MetricAggReqData>,
    pub composite_req_data: ItemList<CompositeAggReqData<'s>>,
    pub agg_tree: ItemList<AggRefNode>,
}

/// What collectors are asked in a segment.
#[derive(Drop)]
pub struct AggregationsSegmentCtx<'s> {
    pub per_request: PerRequestAggSegCtx<'s>,
}
