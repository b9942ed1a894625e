//! Maps from tuples, ascending by the orders of their sources.
pub(crate) mod tuple_map;
pub(crate) mod tuple_order;

pub use tuple_map::TupleMap;
pub use tuple_order::tuple_ordering;
