//! Keys, their order and their texts, with the small containers that contracts see as lists and
//! maps.
#![tactic(auto)]

mod address;
mod after_key;
mod column;
mod composite_key;
mod error;
pub mod freeing;
mod item_list;
mod key;
mod laws;
mod name_entries;
mod name_map;
mod number;
mod order;
mod order_target;
mod request_error;
mod room;
mod steps;
mod text;
mod tuple;
pub mod tuple_map;
mod typed_key;

pub use address::Address;
pub use after_key::{AfterKey, copied_after_key};
pub use column::ColumnPaginationOrder;
pub use composite_key::CompositeKey;
pub use error::{InvalidArgument, KeyTextError, OutOfMemory, TooMany};
pub use item_list::ItemList;
pub use key::{IntermediateKey, Key};
pub use laws::{
    classes_ascend_as_keys, desc_reverses_asc, equality_is_sameness, key_order_is_exact,
    key_order_is_total, projected_equality_is_sameness, the_defaults, tuple_order_is_exact,
    tuple_order_is_total,
};
pub use name_entries::{NameEntries, NameKeys};
pub use name_map::NameMap;
pub use number::{ProjectedNumber, cmp_i64_u64, i64_to_u64, u64_to_i64};
pub use order::{MissingOrder, Order, composite_intermediate_key_ordering};
pub use order_target::OrderTarget;
pub use request_error::{AggregationError, DateHistogramParseError, RequestError};
pub use steps::Steps;
pub use text::Text;
pub use tuple::Tuple;
pub use typed_key::{CompositeIntermediateKey, canonical};

/// The number of a document in its segment.
pub type DocId = u32;
