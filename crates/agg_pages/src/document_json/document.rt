//! A document: an object from field to a value, or to an array of values.
ghost use Rattle.std.specs.Prelude.{◌≡◌, None, IfOk, OnOk, IfSome, IsErrOf, option_map};
ghost use Rattle.std.specs.Prelude.{option_and_then};
ghost use Rattle.serde_json.specs.Data.{item as one_item, no_items, object};
ghost use Rattle.serde_json.specs.Find.{as_integer, as_number};
ghost use Rattle.serde_json.specs.View.{items_view, members_view, view};
ghost use Rattle.agg_segment.specs.storage.Document.{key_of, meaning};
ghost use Rattle.agg_values.specs.TypedKey.{typed_number};
ghost use Rattle.agg_values.specs.declared.typed_key.CompositeIntermediateKey.TheVariants as key;
ghost use Rattle.agg_pages.specs.document_json.DocumentLine.{HasKey, HaveKeys, IsAddressKey};
ghost use Rattle.agg_pages.specs.document_json.DocumentLine.{IsDocument, IsDocumentLine};
ghost use Rattle.agg_pages.specs.document_json.DocumentLine.{address_text_of, date_of};
ghost use Rattle.agg_pages.specs.document_json.DocumentLine.{field_values, plain_key, values_among};
ghost use Rattle.agg_pages.specs.document_json.Fields.{AddsValues};
ghost use Rattle.agg_values.specs.Nothing.{NoneIs};
ghost use Rattle.agg_pages.specs.document_json.AddedDocument.{HasNoDocument, HoldsLine};

use crate::document_json::InputError;
use crate::document_json::line_value::parse;
use crate::document_json::tokens::{LineRoom, read_document_tokens};
use agg_request::json_values::json_value::only_named;
use agg_segment::{Document, FieldValue, SegmentBuilder};
use agg_values::{Address, OutOfMemory, Text};
use serde_json::{Map, Value};
use std::alloc::Global;

/// Appends the document of a line to a segment. `room` is kept from line to line.
pub fn read_document(
    alloc: Global,
    builder: &mut SegmentBuilder,
    line: &str,
    room: &mut LineRoom,
) -> Result<(), InputError>
    ensures ok { OnOk result (HoldsLine line.now builder.old builder.new) }
    ensures not_input { IsErrOf result InputError.NotInput
        → HasNoDocument line.now builder.old }
{
    if read_document_tokens(alloc, builder, line, room)? {
        return Ok(());
    }
    read_by_value(alloc, builder, line)
}

// Appends the document of a line, read from its JSON value.
fn read_by_value(alloc: Global, builder: &mut SegmentBuilder, line: &str) -> Result<(), InputError>
    ensures ok { OnOk result (HoldsLine line.now builder.old builder.new) }
    ensures not_input { IsErrOf result InputError.NotInput
        → HasNoDocument line.now builder.old }
{
    let document = document_of(alloc, line)?;
    Ok(builder.add_document(document)?)
}

// The document of a line.
fn document_of(alloc: Global, line: &str) -> Result<Document, InputError>
    ensures ok { IfOk result (λ document. IsDocumentLine line.now (meaning document)) }
    ensures not_input { IsErrOf result InputError.NotInput
        → NoneIs (IsDocumentLine line.now) }
{
    match parse(alloc, line)? {
        Value::Object(members) => document_of_members(alloc, members),
        _ => Err(InputError::NotInput),
    }
}

// The names and texts are copied into the document.
fn document_of_members(alloc: Global, members: Map<String, Value>) -> Result<Document, InputError>
    ensures ok { IfOk result
        (λ document. IsDocument (object (members_view members.entries)) (meaning document)) }
    ensures not_input { IsErrOf result InputError.NotInput
        → NoneIs (IsDocument (object (members_view members.entries))) }
{
    let mut document = Document::new(alloc);
    for (name, value) in members {
        add_values(alloc, &mut document, name.as_str(), &value)?;
    }
    Ok(document)
}

// Adds the values of a field: one, or those of an array.
fn add_values(
    alloc: Global,
    document: &mut Document,
    name: &str,
    value: &Value,
) -> Result<(), InputError>
    ensures ok { OnOk result
        (AddsValues name.now (field_values (view value.now)) document.old document.new) }
    ensures not_input { IsErrOf result InputError.NotInput
        → NoneIs (HaveKeys (field_values (view value.now))) }
{
    match value.as_array() {
        Some(items) => add_items(alloc, document, name, items.as_slice()),
        None => add_item(alloc, document, name, value),
    }
}

fn add_items(
    alloc: Global,
    document: &mut Document,
    name: &str,
    items: &[Value],
) -> Result<(), InputError>
    ensures ok { OnOk result
        (AddsValues name.now (values_among (items_view items.now)) document.old document.new) }
    ensures not_input { IsErrOf result InputError.NotInput
        → NoneIs (HaveKeys (values_among (items_view items.now))) }
{
    for item in items {
        add_item(alloc, document, name, item)?;
    }
    Ok(())
}

// Adds a value, where `null` is none.
fn add_item(
    alloc: Global,
    document: &mut Document,
    name: &str,
    item: &Value,
) -> Result<(), InputError>
    ensures ok { OnOk result
        (AddsValues name.now (values_among (one_item (view item.now) no_items))
        document.old document.new) }
    ensures not_input { IsErrOf result InputError.NotInput
        → NoneIs (HaveKeys (values_among (one_item (view item.now) no_items))) }
{
    if item.is_null() {
        return Ok(());
    }
    let value = read_value(alloc, item)?;
    document.add(Text::copy_of(alloc, name)?, value)?;
    Ok(())
}

fn read_value(alloc: Global, value: &Value) -> Result<FieldValue, InputError>
    ensures ok { IfOk result (λ read. HasKey (view value.now) (key_of read)) }
    ensures not_input { IsErrOf result InputError.NotInput
        → NoneIs (HasKey (view value.now)) }
{
    match read_plain(alloc, value)? {
        Some(plain) => Ok(plain),
        None => match read_address(alloc, value)? {
            Some(address) => Ok(FieldValue::Ip(address)),
            None => Err(InputError::NotInput),
        },
    }
}

// A value that is no address.
fn read_plain(alloc: Global, value: &Value) -> Result<Option<FieldValue>, OutOfMemory>
    ensures { IfOk result (λ plain. option_map key_of plain ≡ plain_key (view value.now)) }
{
    match value {
        Value::Bool(b) => Ok(Some(FieldValue::Bool(*b))),
        Value::String(text) => Ok(Some(FieldValue::Str(Text::copy_of(alloc, text.as_str())?))),
        Value::Number(_) => Ok(read_number(value)),
        Value::Object(_) => Ok(read_date(value)),
        _ => Ok(None),
    }
}

// A whole number within i64 or u64.
fn read_number(value: &Value) -> Option<FieldValue>
    ensures { option_map key_of result
        ≡ option_map typed_number (option_and_then as_integer (as_number (view value.now))) }
{
    if let Some(n) = value.as_i64() {
        return Some(FieldValue::I64(n));
    }
    Some(FieldValue::U64(value.as_u64()?))
}

// A date, by its nanoseconds.
fn read_date(value: &Value) -> Option<FieldValue>
    ensures { option_map key_of result ≡ option_map key.DateTime (date_of (view value.now)) }
{
    Some(FieldValue::Date(only_named(value, "dt")?.as_i64()?))
}

// An address, by its text.
fn read_address(alloc: Global, value: &Value) -> Result<Option<Address>, OutOfMemory>
    ensures found { IfOk result
        (λ found. IfSome found (λ address. IsAddressKey (view value.now) (key.IpAddr address))) }
    ensures none { IfOk result
        (λ found. found ≡ None → NoneIs (IsAddressKey (view value.now))) }
{
    match address_text(value) {
        Some(text) => Ok(Address::read(&Text::copy_of(alloc, text)?)),
        None => Ok(None),
    }
}

fn address_text(value: &Value) -> Option<&str>
    ensures { option_map (λ s. s.now) result ≡ address_text_of (view value.now) }
{
    only_named(value, "ip")?.as_str()
}
