//! Accessors of sources in a segment: projected after keys, encoded keys, starts and ranges.
pub(crate) mod accessor;
pub(crate) mod after_key;
pub(crate) mod decoding;
pub(crate) mod divisor;
pub(crate) mod encoded;
pub(crate) mod lanes;
pub(crate) mod laws;
pub(crate) mod numbers;
pub(crate) mod occurrences;
pub(crate) mod ranges;
pub(crate) mod request_data;

pub use accessor::{CompositeAccessor, CompositeSourceAccessors};
pub use after_key::PrecomputedAfterKey;
pub use decoding::decode_tuple;
pub use divisor::{DividedColumn, Divisor};
pub use encoded::Encoded;
pub use lanes::{count_of_lanes, lane_of};
pub use laws::encoded_tuples_compare_as_typed;
pub use request_data::CompositeAggReqData;
