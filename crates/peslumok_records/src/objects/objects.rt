//! Objects as documents: the values of the asked members.
ghost use Rattle.std.specs.Prelude.{◌≡◌, [], None, true, false, IfErr, IfOk, OnOk, option_map};
ghost use Rattle.std.specs.List.{All};
ghost use Rattle.json.specs.Value.{items_view, value_view};
ghost use Rattle.agg_values.specs.Nothing.{NoneIs};
ghost use Rattle.agg_segment.specs.Segment.{IsNameOf, gathered_documents};
ghost use Rattle.peslumok_records.specs.held.Asked.{IsCut};
ghost use Rattle.peslumok_records.specs.held.Documents.{IsRead};
ghost use Rattle.peslumok_records.specs.held.Causes.{is_encoding, is_fault};
ghost use Rattle.peslumok_records.specs.held.Held.{Holds, held_documents};
ghost use Rattle.peslumok_records.specs.held.Values.{Gains, document_of_fields};
ghost use Rattle.peslumok_records.specs.held.Values.{named_values, values_of_fields};
ghost use Rattle.peslumok_records.specs.objects.Objects.{field_values, item_values, member_values};
ghost use Rattle.peslumok_records.specs.objects.Objects.{object_document, single_values};

use crate::held::{AskedField, AskedFields, RecordCause, RecordError, Records};
use crate::objects::members::member_of;
use crate::objects::scalars::value_of_item;
use agg_segment::SegmentBuilder;
use agg_values::OutOfMemory;
use json::Value;
use std::alloc::Global;

/// Appends the document of a JSON value, which has to be an object.
pub fn add_object(
    alloc: Global,
    records: &mut Records,
    asked: &AskedFields,
    value: &Value<'_>,
) -> Result<(), RecordError>
    ensures ok { OnOk result
        (Holds (object_document asked.now (value_view value.now)) records.old records.new) }
    ensures cause { IfErr result (λ error. is_encoding error.cause ≡ false) }
    ensures none { IfErr result (λ error. is_fault error.cause ≡ true
        → NoneIs (IsRead (object_document asked.now (value_view value.now)))) }
{
    let Value::Object(members) = value else {
        return Err(RecordError::of(RecordCause::NotAnObject));
    };
    see_members(records, members.as_slice())?;
    if try_object(alloc, records, asked, value)? {
        return Ok(());
    }
    if try_object(alloc, records, asked, value)? {
        return Ok(());
    }
    Err(RecordError::of(RecordCause::MixedNumbers))
}

// Appends the document of an object. False where the next segment has begun in its place.
fn try_object(
    alloc: Global,
    records: &mut Records,
    asked: &AskedFields,
    object: &Value<'_>,
) -> Result<bool, RecordError>
    ensures taken { IfOk result (λ taken. taken ≡ true
        → Holds (document_of_fields (field_values (value_view object.now)) asked.now)
        records.old records.new) }
    ensures left { IfOk result (λ taken. taken ≡ false
        → held_documents records.new ≡ held_documents records.old) }
    ensures fresh { IfOk result (λ taken. taken ≡ false
        → gathered_documents records.new.builder ≡ []) }
    ensures mixed { IfOk result (λ taken. taken ≡ false
        → gathered_documents records.old.builder ≡ []
        → NoneIs (IsRead
        (document_of_fields (field_values (value_view object.now)) asked.now))) }
    ensures cause { IfErr result (λ error. is_encoding error.cause ≡ false) }
    ensures none { IfErr result (λ error. is_fault error.cause ≡ true
        → NoneIs (IsRead
        (document_of_fields (field_values (value_view object.now)) asked.now))) }
{
    records.forget_open();
    push_object(alloc, &mut records.builder, asked.cut(), object)?;
    Ok(records.close(asked)?)
}

// Keeps the names of an object's members.
fn see_members(records: &mut Records, members: &[(&str, Value<'_>)]) -> Result<(), OutOfMemory>
    ensures { held_documents records.new ≡ held_documents records.old }
{
    if !records.looks_at_names() {
        return Ok(());
    }
    for member in members {
        records.see_name(member.0)?;
    }
    Ok(())
}

// Appends the values of the asked members to the open document.
fn push_object(
    alloc: Global,
    builder: &mut SegmentBuilder,
    asked: &[AskedField],
    object: &Value<'_>,
) -> Result<(), RecordError>
    requires { All IsCut asked.now }
    ensures ok { OnOk result (Gains
        (values_of_fields (field_values (value_view object.now)) asked.now)
        builder.old builder.new) }
    ensures documents { gathered_documents builder.new ≡ gathered_documents builder.old }
    ensures cause { IfErr result (λ error. is_encoding error.cause ≡ false) }
    ensures none { IfErr result (λ error. is_fault error.cause ≡ true
        → values_of_fields (field_values (value_view object.now)) asked.now ≡ None) }
{
    for field in asked {
        if let Err(cause) = push_field(alloc, builder, object, field) {
            return Err(RecordError::of_field(alloc, &field.name, cause));
        }
    }
    Ok(())
}

// Appends the values of a field, if the object has a member for it.
fn push_field(
    alloc: Global,
    builder: &mut SegmentBuilder,
    object: &Value<'_>,
    field: &AskedField,
) -> Result<(), RecordCause>
    requires { IsCut field.now }
    ensures ok { OnOk result (Gains
        (option_map (named_values field.now.name) (field_values (value_view object.now) field.now))
        builder.old builder.new) }
    ensures documents { gathered_documents builder.new ≡ gathered_documents builder.old }
    ensures cause { IfErr result (λ cause. is_encoding cause ≡ false) }
    ensures none { IfErr result (λ cause. is_fault cause ≡ true
        → field_values (value_view object.now) field.now ≡ None) }
{
    match member_of(object, field) {
        Some(member) => push_member(alloc, builder, field, member),
        None => Ok(()),
    }
}

// Appends the values of a member: one, or those of an array.
fn push_member(
    alloc: Global,
    builder: &mut SegmentBuilder,
    field: &AskedField,
    member: &Value<'_>,
) -> Result<(), RecordCause>
    ensures ok { OnOk result (Gains
        (option_map (named_values field.now.name)
        (member_values field.now.of (value_view member.now)))
        builder.old builder.new) }
    ensures documents { gathered_documents builder.new ≡ gathered_documents builder.old }
    ensures cause { IfErr result (λ cause. is_encoding cause ≡ false) }
    ensures none { IfErr result (λ cause. is_fault cause ≡ true
        → member_values field.now.of (value_view member.now) ≡ None) }
{
    let number = builder.field(field.name.as_str())?;
    match member {
        Value::Array(items) => push_items(alloc, builder, number, field, items.as_slice()),
        _ => push_item(alloc, builder, number, field, member),
    }
}

fn push_items(
    alloc: Global,
    builder: &mut SegmentBuilder,
    number: u32,
    field: &AskedField,
    items: &[Value<'_>],
) -> Result<(), RecordCause>
    requires { IsNameOf builder.old number field.now.name }
    ensures ok { OnOk result (Gains
        (option_map (named_values field.now.name)
        (item_values field.now.of (items_view items.now)))
        builder.old builder.new) }
    ensures documents { gathered_documents builder.new ≡ gathered_documents builder.old }
    ensures cause { IfErr result (λ cause. is_encoding cause ≡ false) }
    ensures none { IfErr result (λ cause. is_fault cause ≡ true
        → item_values field.now.of (items_view items.now) ≡ None) }
{
    for item in items {
        push_item(alloc, builder, number, field, item)?;
    }
    Ok(())
}

/// Appends the value of a member or an item that is no array. `null` is none.
pub fn push_item(
    alloc: Global,
    builder: &mut SegmentBuilder,
    number: u32,
    field: &AskedField,
    item: &Value<'_>,
) -> Result<(), RecordCause>
    requires { IsNameOf builder.old number field.now.name }
    ensures ok { OnOk result (Gains
        (option_map (named_values field.now.name)
        (single_values field.now.of (value_view item.now)))
        builder.old builder.new) }
    ensures documents { gathered_documents builder.new ≡ gathered_documents builder.old }
    ensures names { builder.new.names ≡ builder.old.names }
    ensures cause { IfErr result (λ cause. is_encoding cause ≡ false) }
    ensures none { IfErr result (λ cause. is_fault cause ≡ true
        → single_values field.now.of (value_view item.now) ≡ None) }
{
    if let Some(value) = value_of_item(alloc, item, field.of)? {
        builder.push(number, value)?;
    }
    Ok(())
}
