//! Groups of a page as a table, as JSON lines or as CSV.
pub(crate) mod cells;
pub(crate) mod columns;
pub(crate) mod csv_lines;
pub(crate) mod json_lines;
pub(crate) mod output;
pub(crate) mod row;
pub(crate) mod table;
pub(crate) mod visible;

pub use cells::{cells_of_group, cells_of_total};
pub use columns::{Columns, TableColumn};
pub use csv_lines::write_csv_cell;
pub use output::write_rows;
pub use row::{Row, TableCell};
