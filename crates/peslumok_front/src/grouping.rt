//! What a grouping of records asks, and the request, the query and the fields that it stands for.
pub(crate) mod boolean;
pub(crate) mod by_fault;
pub(crate) mod condition;
pub(crate) mod division;
pub(crate) mod error;
pub(crate) mod fields;
pub(crate) mod grouping;
pub(crate) mod laws;
pub(crate) mod min;
pub(crate) mod query;
pub(crate) mod request;
pub(crate) mod source;

pub use by_fault::{ByFault, IntervalFault, OffsetFault};
pub use error::{GroupingError, QueryFault};
pub use fields::asked_fields;
pub use grouping::{Grouping, column_of, metric_name};
pub use laws::{groupings_have_no_builders, sources_are_called_as_their_columns};
pub use query::query_of;
pub use request::{AskedPage, GROUPS, TOTAL, request_of};
