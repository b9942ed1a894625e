use crate::segment_context::Page;
use agg_segment::{QueryTree, SegmentReader};
use std::alloc::Global;

/// What the data of aggregations is made of: a segment, the trees of all filters in order, and at
/// the top of the request the page, if one is set.
#[derive(Drop)]
pub struct Origin<'s, 'p> {
    pub alloc: Global,
    pub reader: &'s SegmentReader,
    pub trees: &'p [QueryTree],
    pub page: Option<&'p Page>,
    pub is_top_level: bool,
}
