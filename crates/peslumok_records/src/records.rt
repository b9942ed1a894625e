//! Records of CSV, TSV, JSON lines and JSON arrays, read into segments of the asked fields alone.
pub(crate) mod encoding;
pub(crate) mod laws;
pub(crate) mod read;

pub use crate::held::{AskedField, AskedFields, RecordCause, RecordError, Records};
pub use laws::a_text_has_one_list_of_documents;
pub use read::read_records;
