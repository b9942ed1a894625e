//! The fields that are read of records.
ghost use Rattle.std.specs.Prelude.{IfOk, OnErr, OnOk, [], ◌≡◌};
ghost use Rattle.std.specs.List.{All};
ghost use Rattle.peslumok_records.specs.held.Asked.{Asks, IsCut, path_of};

use agg_values::{OutOfMemory, Text};
use peslumok_texts::fields::FieldType;
use std::alloc::Global;
use std::marker::Model;

/// A field that is read: its name, that name cut at its points, and what it holds.
#[derive(Drop)]
pub struct AskedField {
    pub name: Text,
    /// The name cut at its points.
    pub path: Vec<Text>,
    pub of: FieldType,
}

/// The fields that are read, in the order in which they were asked for, seen by contracts as their
/// list.
#[derive(Drop)]
pub struct AskedFields {
    fields: Vec<AskedField>,
}

impl Model for AskedFields {
    ghost use Rattle.std.specs.Prelude.{List};
    ghost use Rattle.std.specs.List.{All};
    ghost use Rattle.peslumok_records.specs.held.Asked.{IsCut};
    ghost use Rattle.peslumok_records.specs.declared.held.asked.AskedField.{AskedField};

    ghost Value = { List AskedField };

    ghost view = { λ asked. asked.fields.items };

    ghost invariant = { λ asked. All IsCut asked.fields.items };
}

impl AskedFields {
    /// No fields.
    pub fn new(alloc: Global) -> AskedFields
        ensures { result ≡ [] }
    {
        AskedFields {
            fields: Vec::new(alloc),
        }
    }

    /// Asks for a field. One that was asked for before keeps its type.
    pub fn ask(&mut self, alloc: Global, name: Text, of: FieldType) -> Result<(), OutOfMemory>
        ensures ok { OnOk result (Asks name of self.old self.new) }
        ensures err { OnErr result (self.new ≡ self.old) }
    {
        if self.fields.iter().any(|field| field.name == name) {
            return Ok(());
        }
        let path = path_of(alloc, name.as_str())?;
        self.fields.push(AskedField { name, path, of })?;
        Ok(())
    }

    /// The fields.
    pub fn as_slice(&self) -> &[AskedField]
        ensures { result.now ≡ self.now }
    {
        self.fields.as_slice()
    }

    /// The fields, whose paths are their names cut at points.
    pub fn cut(&self) -> &[AskedField]
        ensures same { result.now ≡ self.now }
        ensures cut { All IsCut result.now }
    {
        self.fields.as_slice()
    }
}

// The name cut at its points.
fn path_of(alloc: Global, name: &str) -> Result<Vec<Text>, OutOfMemory>
    ensures { IfOk result (λ path. path.items ≡ path_of name.now) }
{
    let mut path = Vec::new(alloc);
    for part in name.split('.') {
        path.push(Text::copy_of(alloc, part)?)?;
    }
    Ok(path)
}
