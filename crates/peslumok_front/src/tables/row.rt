//! The lines of output.
ghost use Rattle.std.specs.Prelude.{◌≡◌, map, option_map};
ghost use Rattle.peslumok_front.specs.tables.Cells.{is_total, shown_by, shown_cells, shown_text};

/// What a line shows in a column.
#[derive(Debug, Drop)]
pub enum TableCell {
    Text(String),
    /// A number, as JSON has it.
    Number(String),
    Bool(bool),
    /// No value.
    Missing,
}

impl TableCell {
    /// The text that the cell shows, None where it has no value.
    pub fn text(&self) -> Option<&str>
        ensures { option_map (λ text. text.now) result ≡ shown_text (shown_by self.now) }
    {
        match self {
            TableCell::Text(text) | TableCell::Number(text) => Some(text.as_str()),
            TableCell::Bool(true) => Some("true"),
            TableCell::Bool(false) => Some("false"),
            TableCell::Missing => None,
        }
    }
}

/// A line of output: a group, or the totals of all documents.
#[derive(Debug, Drop)]
pub struct Row {
    pub(crate) is_total: bool,
    pub(crate) cells: Vec<TableCell>,
}

impl Row {
    /// Whether the line has the totals of all documents.
    pub fn is_total(&self) -> bool
        ensures { result ≡ is_total self.now }
    {
        self.is_total
    }

    /// The cells, one for each column.
    pub fn cells(&self) -> &[TableCell]
        ensures { map shown_by result.now ≡ shown_cells self.now }
    {
        self.cells.as_slice()
    }
}
