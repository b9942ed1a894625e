//! The text of a key, which is read back as the key.
ghost use Rattle.std.specs.Prelude.{◌≡◌, ◌++◌, ℕ, List, IfOk, OnOk, IsTrue, false, string_bytes};
ghost use Rattle.csv.specs.Writing.{default_writer, fields_text, row_body};
ghost use Rattle.agg_values.specs.KeyText.{IsKeyText};
ghost use Rattle.agg_values.specs.Nothing.{NoneIs};
ghost use Rattle.agg_values.specs.declared.after_key.AfterKey.{AfterKey as Key};
ghost use Rattle.peslumok_front.specs.after_text.After.{HaveOwnColumns, IsAfterText, IsValueKey};
ghost use Rattle.peslumok_front.specs.after_text.After.{NamesFirst, ReadsAs, keys_by_name};
ghost use Rattle.peslumok_front.specs.after_text.AfterCells.{AreTextsOf, IsCell};

use crate::after_text::key::{prefixed_key, typed_key};
use crate::grouping::{Grouping, column_of};
use crate::tables::write_csv_cell;
use agg_values::{AfterKey, NameMap, OutOfMemory, Text};
use peslumok_texts::fields::{FieldType, ValueError, value_of_text, write_value};
use std::alloc::Global;

/// Appends the text of a key, which `after_of` reads back: the values of the sources in order, up
/// to the first that the key doesn't name.
pub fn write_after(
    alloc: Global,
    out: &mut String,
    after: &NameMap<AfterKey>,
    grouping: &Grouping<'_>,
) -> Result<(), OutOfMemory>
    ensures { OnOk result (
        (text : List ℕ)
        × (string_bytes out.new ≡ string_bytes out.old ++ text)
        × (HaveOwnColumns grouping.now.by.items → NamesFirst grouping.now.by.items after.now
        → IsAfterText grouping.now text after.now)) }
{
    let texts = texts_of(alloc, after, grouping)?;
    write_texts(out, texts.as_slice())
}

// The texts of the keys of the first sources, up to one that isn't named.
fn texts_of(
    alloc: Global,
    after: &NameMap<AfterKey>,
    grouping: &Grouping<'_>,
) -> Result<Vec<Text>, OutOfMemory>
    ensures { IfOk result (λ texts. (keys : List Key) → HaveOwnColumns grouping.now.by.items
        → after.now ≡ keys_by_name grouping.now.by.items keys
        → AreTextsOf grouping.now.types grouping.now.by.items keys texts.items) }
{
    let mut texts = Vec::new(alloc);
    for by in grouping.by.iter() {
        let name = Text::copy_of(alloc, column_of(by))?;
        match after.get(&name) {
            None => return Ok(texts),
            Some(key) => {
                let field = Text::copy_of(alloc, by.field)?;
                let text = after_text(alloc, key, &grouping.types.get(&field))?;
                texts.push(text)?;
            }
        }
    }
    Ok(texts)
}

// Appends texts as the cells of a line.
fn write_texts(out: &mut String, texts: &[Text]) -> Result<(), OutOfMemory>
    ensures { OnOk result
        (string_bytes out.new ≡ string_bytes out.old ++ row_body default_writer texts.now) }
{
    match texts {
        [] => Ok(()),
        [text, rest @ ..] => {
            write_csv_cell(out, text.as_str())?;
            write_rest(out, rest)
        }
    }
}

// Appends texts as cells, each after a comma.
fn write_rest(out: &mut String, texts: &[Text]) -> Result<(), OutOfMemory>
    ensures { OnOk result
        (string_bytes out.new ≡ string_bytes out.old ++ fields_text default_writer texts.now) }
{
    for text in texts {
        out.push(',')?;
        write_csv_cell(out, text.as_str())?;
    }
    Ok(())
}

// A key as it is shown, where that is read back as this key, or else with its kind in front.
fn after_text(alloc: Global, key: &AfterKey, of: &FieldType) -> Result<Text, OutOfMemory>
    ensures cell { IfOk result IsCell }
    ensures back { IfOk result (λ text. ReadsAs of.now text key.now.0) }
{
    let shown = shown_text(alloc, key, of)?;
    if stands_for(alloc, &shown, key, of)? {
        Ok(shown)
    } else {
        key.write(alloc)
    }
}

// A key as it is shown.
fn shown_text(alloc: Global, key: &AfterKey, of: &FieldType) -> Result<Text, OutOfMemory> {
    let mut shown = String::new(alloc);
    write_value(&mut shown, &key.0, *of)?;
    Text::from_string(shown)
}

// Whether a text is a cell that is read as a key, with no kind in front.
fn stands_for(
    alloc: Global,
    text: &Text,
    key: &AfterKey,
    of: &FieldType,
) -> Result<bool, OutOfMemory>
    ensures cell { IfOk result (λ stands. IsTrue stands → IsCell text.now) }
    ensures back { IfOk result (λ stands. IsTrue stands → ReadsAs of.now text.now key.now.0) }
{
    if !is_cell(text.as_str().as_bytes()) || has_kind(alloc, text)? {
        return Ok(false);
    }
    is_value(alloc, text, key, of)
}

// Whether a text is that of a key with its kind in front.
fn has_kind(alloc: Global, text: &Text) -> Result<bool, OutOfMemory>
    ensures { IfOk result (λ has. has ≡ false → NoneIs (IsKeyText text.now)) }
{
    Ok(prefixed_key(alloc, text.as_str())?.is_some())
}

// Whether a text has characters, and begins with no byte order mark.
fn is_cell(text: &[u8]) -> bool
    ensures { IsTrue result → IsCell text.now }
{
    !text.is_empty() && text.strip_prefix(b"\xEF\xBB\xBF").is_none()
}

// Whether a text is that of a value, whose key is this one.
fn is_value(alloc: Global, text: &Text, key: &AfterKey, of: &FieldType) -> Result<bool, OutOfMemory>
    ensures { IfOk result (λ is. IsTrue is → IsValueKey of.now text.now key.now.0) }
{
    match value_of_text(alloc, text.as_str(), *of) {
        Ok(value) => Ok(typed_key(value) == key.0),
        Err(ValueError::OutOfMemory) => Err(OutOfMemory),
        Err(_) => Ok(false),
    }
}
