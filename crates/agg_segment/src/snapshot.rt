//! Snapshots of an index.
use crate::SegmentReader;
use agg_values::ItemList;

/// An index at one moment: its segments, and how many groups the page over it has room for.
#[derive(Drop)]
pub struct Snapshot {
    pub segments: ItemList<SegmentReader>,
    pub page_size: u32,
}
