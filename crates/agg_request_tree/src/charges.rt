//! What requests are charged in memory: the fixed charge of a request in a segment, its roof and
//! its low roof, and their laws.
pub(crate) mod charges;
pub(crate) mod laws;

pub use charges::{NODE_BYTES, bucket_bytes};
pub use laws::{
    low_roofs_are_at_most_roofs, roofs_rise_with_documents, tuples_are_those_of_the_groups,
};
