use agg_cache::BucketId;
use agg_values::Tuple;

/// A bucket of a segment's page: its tuple, how often it occurs, and the id under which its
/// documents are handed on.
#[derive(Debug, Drop)]
pub struct PageEntry {
    pub key: Tuple,
    pub doc_count: u64,
    pub bucket_id: BucketId,
}
