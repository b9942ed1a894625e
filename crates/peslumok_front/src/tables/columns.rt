//! The columns of the lines.
ghost use Rattle.std.specs.Prelude.{◌≡◌, [], ◌∷◌, ◌++◌, OnOk, OnErr};
ghost use Rattle.peslumok_front.specs.tables.Columns.{header_of, is_key};

use agg_values::{ItemList, OutOfMemory, Text};
use peslumok_texts::fields::FieldType;
use std::alloc::Global;
use std::marker::Model;

/// What a column shows.
#[derive(Debug, Drop)]
pub enum TableColumn {
    /// The key of a source, by the name of the source and the type of its field.
    Key { name: Text, of: FieldType },
    /// The number of documents.
    Count,
    /// A metric, by its name and the type that its number is shown in.
    Metric { name: Text, of: FieldType },
}

impl TableColumn {
    /// What stands above the column: its name, or `count`.
    pub fn header(&self) -> &str
        ensures { result.now ≡ header_of self.now }
    {
        match self {
            TableColumn::Key { name, .. } | TableColumn::Metric { name, .. } => name.as_str(),
            TableColumn::Count => "count",
        }
    }

    /// Whether the column shows a key.
    pub fn is_key(&self) -> bool
        ensures { result ≡ is_key self.now }
    {
        matches!(self, TableColumn::Key { .. })
    }
}

/// Columns in their order, seen by contracts as their list.
#[derive(Debug, Drop)]
pub struct Columns(ItemList<TableColumn>);

impl Model for Columns {
    ghost use Rattle.std.specs.Prelude.{List};
    ghost use Rattle.peslumok_front.specs.declared.tables.columns.TableColumn.{TableColumn};

    ghost Value = { List TableColumn };

    ghost view = { λ columns. columns.0 };
}

impl Columns {
    /// No columns.
    pub fn new(alloc: Global) -> Columns
        ensures { result ≡ [] }
    {
        Columns(ItemList::new(alloc))
    }

    /// Puts a column after the others.
    pub fn push(&mut self, column: TableColumn) -> Result<(), OutOfMemory>
        ensures ok { OnOk result (self.new ≡ self.old ++ column ∷ []) }
        ensures err { OnErr result (self.new ≡ self.old) }
    {
        self.0.push(column)
    }

    /// The columns.
    pub fn as_slice(&self) -> &[TableColumn]
        ensures { result.now ≡ self.now }
    {
        self.0.as_slice()
    }
}
