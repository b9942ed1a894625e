ghost use Rattle.std.specs.Prelude.{◌≡◌, [], IfOk, OnOk, OnErr};
ghost use Rattle.agg_values.specs.Names.{value_of, put};
ghost use Rattle.peslumok_texts.specs.fields.Types.{type_of};

use crate::fields::FieldType;
use agg_values::{NameMap, OutOfMemory, Text};
use std::alloc::Global;
use std::marker::Model;

/// The type of each field, by its name. A field that has none is a plain one.
#[derive(Drop)]
pub struct FieldTypes {
    types: NameMap<FieldType>,
}

impl Model for FieldTypes {
    ghost use Rattle.agg_values.specs.Names.{Named};
    ghost use Rattle.peslumok_texts.specs.declared.fields.field_type.FieldType.{FieldType};

    ghost Value = { Named FieldType };

    ghost view = { λ fields. fields.types };
}

impl FieldTypes {
    /// All fields are plain.
    pub fn new(alloc: Global) -> FieldTypes
        ensures { result ≡ [] }
    {
        FieldTypes {
            types: NameMap::new(alloc),
        }
    }

    /// Sets the type of a field, and gives the one that was set before, if any.
    pub fn set(&mut self, field: Text, of: FieldType) -> Result<Option<FieldType>, OutOfMemory>
        ensures old { IfOk result (λ old. old ≡ value_of field self.old) }
        ensures ok { OnOk result (self.new ≡ put field of self.old) }
        ensures err { OnErr result (self.new ≡ self.old) }
    {
        self.types.insert(field, of)
    }

    /// The type of a field.
    pub fn get(&self, field: &Text) -> FieldType
        ensures { result ≡ type_of self.now field.now }
    {
        match self.types.get(field) {
            Some(of) => *of,
            None => FieldType::Plain,
        }
    }
}
