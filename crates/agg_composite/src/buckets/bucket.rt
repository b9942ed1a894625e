use agg_cache::BucketId;

/// A bucket: how many documents it has, repeats counted, and its id.
#[derive(Clone, Copy, Debug, PartialEq, Eq)]
pub struct Bucket {
    pub count: u64,
    pub id: BucketId,
}
