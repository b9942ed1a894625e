//! Formats of records and of groups.

/// How the records of a text are written.
#[derive(Clone, Copy, Debug, PartialEq, Eq)]
pub enum RecordFormat {
    /// An object on each line.
    JsonLines,
    /// One array of objects.
    Json,
    /// Cells between commas, under a header.
    Csv,
    /// Cells between tabs, under a header.
    Tsv,
}

/// How groups are written.
#[derive(Clone, Copy, Debug, PartialEq, Eq)]
pub enum OutputFormat {
    /// Aligned columns, under a header.
    Table,
    /// An object on each line.
    JsonLines,
    /// Cells between commas, under a header.
    Csv,
}
