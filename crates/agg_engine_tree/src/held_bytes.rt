//! What the nodes of a request and the buckets of its tree of collectors take in memory, and laws
//! that hold the buckets between the bounds of the charges.
pub(crate) mod buckets;
pub(crate) mod laws;
pub(crate) mod nodes;

pub use buckets::held_bytes;
pub use laws::{flushed_trees_hold_at_least_their_low_roof, trees_hold_at_most_their_roof};
pub use nodes::fixed_bytes;
