//! Values and documents, as the tables of tests hold them.
use agg_segment::{BuildError, Document, FieldValue, SegmentBuilder, SegmentReader};
use agg_values::{Address, OutOfMemory, Text};
use std::alloc::Global;

/// A value of a field.
#[derive(Clone, Copy)]
pub enum Given {
    Truth(bool),
    Text(&'static str),
    Signed(i64),
    Unsigned(u64),
    Address(u128),
    Date(i64),
}

impl Given {
    /// The value itself.
    pub fn value(self, alloc: Global) -> Result<FieldValue, OutOfMemory> {
        Ok(match self {
            Given::Truth(truth) => FieldValue::Bool(truth),
            Given::Text(text) => FieldValue::Str(Text::copy_of(alloc, text)?),
            Given::Signed(number) => FieldValue::I64(number),
            Given::Unsigned(number) => FieldValue::U64(number),
            Given::Address(address) => FieldValue::Ip(Address(address)),
            Given::Date(nanoseconds) => FieldValue::Date(nanoseconds),
        })
    }
}

/// The segment of these documents, each given by its values with the names of their fields.
pub fn segment_of(
    alloc: Global,
    documents: &[&[(&str, Given)]],
) -> Result<SegmentReader, BuildError> {
    let mut builder = SegmentBuilder::new(alloc);
    for values in documents {
        builder.add_document(document_of(alloc, values)?)?;
    }
    builder.build()
}

/// The document of these values.
pub fn document_of(alloc: Global, values: &[(&str, Given)]) -> Result<Document, OutOfMemory> {
    let mut document = Document::new(alloc);
    for (field, given) in values {
        document.add(Text::copy_of(alloc, field)?, given.value(alloc)?)?;
    }
    Ok(document)
}
