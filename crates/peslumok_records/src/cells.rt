//! Records of CSV and TSV: the rows of a text of cells, under its header.
pub(crate) mod cells;
pub(crate) mod encoding;
pub(crate) mod place;
pub(crate) mod quotes;
pub(crate) mod rows;
pub(crate) mod scalars;
pub(crate) mod table;

pub use encoding::without_mark;
pub use table::read_table;
