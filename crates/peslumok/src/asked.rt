//! What the options ask.
use agg_values::Text;
use peslumok_command_line::GroupOptions;
use peslumok_front::front::{Asked, Failure, Pages};
use peslumok_front::grouping::{Grouping, GroupingError};
use peslumok_texts::fields::{FieldType, FieldTypes};
use peslumok_texts::formats::OutputFormat;
use peslumok_texts::words::DateField;
use std::alloc::Global;

// How many groups are made at once where all pages are written.
const PAGE_OF_ALL: u32 = 100_000;

/// What the options ask. Where they tell no format, it is a table on a terminal and JSON lines
/// elsewhere. The error is of a field to which they give two types, or of memory.
pub fn asked_of<'a>(
    alloc: Global,
    options: GroupOptions<'a>,
    is_terminal: bool,
) -> Result<Asked<'a>, Failure> {
    let types = types_of(alloc, &options)?;
    let GroupOptions {
        by,
        conditions,
        query,
        metrics,
        has_total,
        size,
        after,
        is_all,
        top,
        to,
        ..
    } = options;
    Ok(Asked {
        grouping: Grouping {
            by,
            conditions,
            query,
            metrics,
            has_total,
            types,
        },
        pages: Pages {
            size: if is_all { size.max(PAGE_OF_ALL) } else { size },
            after,
            is_all,
            top,
        },
        output: match to {
            Some(format) => format,
            None if is_terminal => OutputFormat::Table,
            None => OutputFormat::JsonLines,
        },
    })
}

// The types of the fields that the options name.
fn types_of(alloc: Global, options: &GroupOptions<'_>) -> Result<FieldTypes, Failure> {
    let mut types = FieldTypes::new(alloc);
    for date in options.dates.iter() {
        let of = type_of_date(date);
        set_type(alloc, &mut types, date.field, of)?;
    }
    for decimal in options.decimals.iter() {
        set_type(
            alloc,
            &mut types,
            decimal.field,
            FieldType::Decimal(decimal.places),
        )?;
    }
    for field in options.texts.iter() {
        set_type(alloc, &mut types, field, FieldType::Text)?;
    }
    Ok(types)
}

fn type_of_date(date: &DateField<'_>) -> FieldType {
    match date.unit {
        Some(unit) => FieldType::DateNumber(unit),
        None => FieldType::Date,
    }
}

// Sets the type of a field, which has none so far.
fn set_type(
    alloc: Global,
    types: &mut FieldTypes,
    field: &str,
    of: FieldType,
) -> Result<(), Failure> {
    let name = Text::copy_of(alloc, field)?;
    match types.set(name, of)? {
        None => Ok(()),
        Some(_) => Err(Failure::from(GroupingError::TwoTypes(Text::copy_of(alloc, field)?))),
    }
}
