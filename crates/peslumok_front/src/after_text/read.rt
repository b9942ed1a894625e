//! The key after which a page begins, as a text of the command line.
ghost use Rattle.std.specs.Prelude.{◌≡◌, ◌≤◌, IfErr, IfOk, MatchResult, length};
ghost use Rattle.agg_values.specs.Names.{Named};
ghost use Rattle.agg_values.specs.declared.after_key.AfterKey.{AfterKey as Key};
ghost use Rattle.csv.specs.Records.{fields_of};
ghost use Rattle.peslumok_front.specs.after_text.After.{IsAfterText, IsExtra, IsKeyOfValues};
ghost use Rattle.peslumok_front.specs.after_text.After.{IsNoAfterText, IsUnreadValue};

use crate::after_text::key::key_of;
use crate::after_text::values::values_of;
use crate::grouping::{Grouping, GroupingError, column_of};
use agg_values::{AfterKey, NameMap, Text};
use csv::StringRecord;
use peslumok_texts::fields::FieldTypes;
use peslumok_texts::words::BySpec;
use std::alloc::Global;

/// The key that a text has: values separated by commas, one for each source in order. A value is
/// read as one of the source's field, or has its kind in front, as `str:12`.
pub fn after_of(
    alloc: Global,
    text: &str,
    grouping: &Grouping<'_>,
) -> Result<NameMap<AfterKey>, GroupingError>
    ensures ok { IfOk result (IsAfterText grouping.now text.now) }
    ensures each { (after : Named Key) → IsAfterText grouping.now text.now after
        → MatchResult result (λ read. read ≡ after)
        (λ error. error ≡ GroupingError.OutOfMemory) }
    ensures cause { IfErr result (IsNoAfterText grouping.now text.now) }
{
    let Some(values) = values_of(alloc, text)? else {
        return Err(extra_value(alloc, text));
    };
    if values.len() > grouping.by.len() {
        return Err(extra_value(alloc, text));
    }
    keys_of(alloc, &values, &grouping.by, &grouping.types)
}

// That a text has more values than there are sources, or more than one line of them.
fn extra_value(alloc: Global, text: &str) -> GroupingError
    ensures { IsExtra text.now result }
{
    match Text::copy_of(alloc, text) {
        Ok(text) => GroupingError::ExtraValue(text),
        Err(error) => GroupingError::from(error),
    }
}

// The key of values, each that of its source.
fn keys_of(
    alloc: Global,
    values: &StringRecord,
    sources: &[BySpec<'_>],
    types: &FieldTypes,
) -> Result<NameMap<AfterKey>, GroupingError>
    requires { length (fields_of values.now) ≤ length sources.now }
    ensures ok { IfOk result (IsKeyOfValues types.now sources.now (fields_of values.now)) }
    ensures each { (after : Named Key)
        → IsKeyOfValues types.now sources.now (fields_of values.now) after
        → MatchResult result (λ read. read ≡ after)
        (λ error. error ≡ GroupingError.OutOfMemory) }
    ensures cause { IfErr result
        (IsUnreadValue types.now sources.now (fields_of values.now)) }
{
    let mut after = NameMap::new(alloc);
    for place in (0..values.len()).rev() {
        let by = &sources[place];
        let value = values.get(place).unwrap();
        let key = key_of(alloc, value, by, types)?;
        let name = Text::copy_of(alloc, column_of(by))?;
        after.insert(name, key)?;
    }
    Ok(after)
}
