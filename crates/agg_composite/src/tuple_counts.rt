//! How often tuples came, in a list that is sorted and counted now and then.
pub(crate) mod grouped;
pub(crate) mod tuple_counts;

pub use tuple_counts::TupleCounts;
