//! Groups the records of files: reads them, pages over their groups, and writes what is asked.
pub(crate) mod asked;
pub(crate) mod check;
pub(crate) mod columns;
pub(crate) mod failure;
pub(crate) mod files;
pub(crate) mod grouped;
pub(crate) mod page;
pub(crate) mod pages;
pub(crate) mod top;
pub(crate) mod written;

pub use crate::after_text::{after_of, write_after};
pub use asked::{Asked, Pages, RecordFile};
pub use check::check_asked;
pub use failure::Failure;
pub use grouped::group;
pub use peslumok_records::record_index::{Report, format_of};
