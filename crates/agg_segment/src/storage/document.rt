ghost use Rattle.std.specs.Prelude.{◌≡◌, [], ◌∷◌, ◌++◌, IfOk, OnOk, OnErr};

use agg_values::{Address, OutOfMemory, Text};
use std::alloc::Global;
use std::marker::Model;

/// A value of a document's field. An I64 and a U64 both mean their number. A date is in nanoseconds
/// since 1970-01-01T00:00:00Z.
#[derive(Debug, Drop, PartialEq)]
pub enum FieldValue {
    Bool(bool),
    Str(Text),
    I64(i64),
    U64(u64),
    Ip(Address),
    Date(i64),
}

impl FieldValue {
    /// An equal value.
    pub fn try_clone(&self, alloc: Global) -> Result<FieldValue, OutOfMemory>
        ensures { IfOk result (λ value. value ≡ self.now) }
    {
        Ok(match self {
            FieldValue::Bool(b) => FieldValue::Bool(*b),
            FieldValue::Str(text) => FieldValue::Str(text.try_clone(alloc)?),
            FieldValue::I64(n) => FieldValue::I64(*n),
            FieldValue::U64(n) => FieldValue::U64(*n),
            FieldValue::Ip(address) => FieldValue::Ip(*address),
            FieldValue::Date(ns) => FieldValue::Date(*ns),
        })
    }
}

/// A document, seen by contracts as its values with the names of their fields, in the order in
/// which they were added.
#[derive(Drop)]
pub struct Document {
    values: Vec<(Text, FieldValue)>,
}

impl Model for Document {
    ghost use Rattle.std.specs.Prelude.{List, ℕ};
    ghost use Rattle.agg_segment.specs.declared.storage.document.FieldValue.{FieldValue};

    ghost Value = { List (List ℕ × FieldValue) };

    ghost view = { λ document. document.values.items };
}

impl Document {
    /// A document with no values.
    pub fn new(alloc: Global) -> Document
        ensures { result ≡ [] }
    {
        Document {
            values: Vec::new(alloc),
        }
    }

    /// Appends a value to a field's list.
    pub fn add(&mut self, field: Text, value: FieldValue) -> Result<(), OutOfMemory>
        ensures ok { OnOk result (self.new ≡ self.old ++ (field, value) ∷ []) }
        ensures err { OnErr result (self.new ≡ self.old) }
    {
        self.values.push((field, value))?;
        Ok(())
    }

    /// The values with the names of their fields, in the order in which they were added.
    pub fn into_values(self) -> Vec<(Text, FieldValue)>
        ensures { result.items ≡ self }
    {
        let Document { values } = self;
        values
    }
}
