//! Requests from JSON: composites with their sources, orders of buckets, and trees of aggregations.
pub(crate) mod composite;
pub(crate) mod custom_order;
pub(crate) mod laws;
pub(crate) mod request;

pub use composite::read_composite;
pub use custom_order::CustomOrder;
pub use laws::{order_equality_is_sameness, the_default_order};
pub use request::{HasName, read_aggregations, read_request};
