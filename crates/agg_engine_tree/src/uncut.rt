//! How many documents the aggregations of a request list, and whether starts of buckets are in
//! range.
pub(crate) mod counts;
pub(crate) mod node_data;
pub(crate) mod ranges;
pub(crate) mod uncut;
pub(crate) mod weights;

pub use counts::UncutCounts;
pub use ranges::are_starts_in_range;
pub use uncut::uncut_lengths;
