//! Values of documents as runs of numbers, and columns of the numbers with dictionaries of their
//! texts and addresses.
pub(crate) mod column;
pub(crate) mod dictionary;
pub(crate) mod document;
pub(crate) mod field_names;
pub(crate) mod hit;
pub(crate) mod kept;
pub(crate) mod keys;
pub(crate) mod laws;
pub(crate) mod log;
pub(crate) mod names;
pub(crate) mod rows;
pub(crate) mod run;
pub(crate) mod sign;
pub(crate) mod texts;

pub use column::Column;
pub use dictionary::{AddressList, Dictionary};
pub use document::{Document, FieldValue};
pub use field_names::FieldNames;
pub use hit::{ColumnType, OrdHit};
pub use kept::PushedValue;
pub use keys::{ColumnKeys, FROM_ZERO, from_zero};
pub use laws::{by_class_keeps_the_keys, values_types_and_hits_are_equal_by_content};
pub use log::Log;
pub use names::{find_number, set_number};
pub use rows::{GrowingRows, Rows};
pub use run::{Run, RunKind};
pub use sign::Sign;
pub use texts::Texts;
