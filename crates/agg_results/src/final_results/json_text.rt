//! Texts as JSON of what has no results inside it. Each writer appends the text of one thing.
ghost use Rattle.std.specs.Prelude.{◌≡◌, List, [], ℕ, ◌++◌, false, OnOk, decimal};
ghost use Rattle.std.specs.Prelude.{string_bytes};
ghost use Rattle.agg_results.specs.final_results.ResultsText.{comma_unless, member_text};
ghost use Rattle.agg_results.specs.final_results.ResultsText.{object_text, metric_text};
ghost use Rattle.agg_results.specs.final_results.ResultsText.{number_text, quoted_after_key};
ghost use Rattle.agg_results.specs.final_results.ResultsText.{shown_key_text, value_text};

use crate::final_results::MetricResult;
use crate::final_results::quoted::write_quoted;
use agg_values::{AfterKey, CompositeKey, NameMap, OutOfMemory};
use itoa::{Buffer, Integer};
use std::alloc::Global;
use std::mem;

/// What has a text as JSON.
pub trait JsonText {
    ghost json: { Self → List ℕ };

    /// Appends the text.
    fn write_to(&self, alloc: Global, text: &mut String) -> Result<(), OutOfMemory>
        ensures { OnOk result (string_bytes text.new ≡ string_bytes text.old ++ json self.now) };
}

impl JsonText for u64 {
    ghost json = { decimal };

    fn write_to(&self, _: Global, text: &mut String) -> Result<(), OutOfMemory> {
        write_number(text, *self)
    }
}

impl JsonText for CompositeKey {
    ghost json = { shown_key_text };

    fn write_to(&self, alloc: Global, text: &mut String) -> Result<(), OutOfMemory> {
        match self {
            CompositeKey::Bool(true) => text.push_str("true")?,
            CompositeKey::Bool(false) => text.push_str("false")?,
            CompositeKey::Str(s) => write_quoted(alloc, text, s.as_str())?,
            CompositeKey::I64(n) => write_number(text, *n)?,
            CompositeKey::U64(n) => write_number(text, *n)?,
            CompositeKey::Null => text.push_str("null")?,
        }
        Ok(())
    }
}

impl JsonText for AfterKey {
    ghost json = { quoted_after_key };

    fn write_to(&self, alloc: Global, text: &mut String) -> Result<(), OutOfMemory> {
        let key = self.write(alloc)?;
        write_quoted(alloc, text, key.as_str())
    }
}

impl JsonText for MetricResult {
    ghost json = { metric_text };

    fn write_to(&self, _: Global, text: &mut String) -> Result<(), OutOfMemory> {
        match self {
            MetricResult::Count(single)
            | MetricResult::Max(single)
            | MetricResult::Min(single)
            | MetricResult::Sum(single) => write_value(text, single.value),
        }
    }
}

impl<T: JsonText> JsonText for NameMap<T> {
    ghost json = { object_text T.json };

    fn write_to(&self, alloc: Global, text: &mut String) -> Result<(), OutOfMemory> {
        text.push('{')?;
        let mut first = true;
        for (name, value) in self.iter() {
            write_comma(text, &mut first)?;
            write_name(alloc, text, name.as_str())?;
            value.write_to(alloc, text)?;
        }
        text.push('}')?;
        Ok(())
    }
}

/// Appends a comma, unless what comes is the first. The next is not the first.
pub fn write_comma(text: &mut String, first: &mut bool) -> Result<(), OutOfMemory>
    ensures comma { OnOk result
        (string_bytes text.new ≡ string_bytes text.old ++ comma_unless first.old) }
    ensures next { first.new ≡ false }
{
    if !mem::replace(first, false) {
        text.push(',')?;
    }
    Ok(())
}

/// Appends a member's name and its colon.
pub fn write_name(alloc: Global, text: &mut String, name: &str) -> Result<(), OutOfMemory>
    ensures { OnOk result
        (string_bytes text.new ≡ string_bytes text.old ++ member_text name.now []) }
{
    write_quoted(alloc, text, name)?;
    text.push(':')?;
    Ok(())
}

// Appends an object of a value alone.
fn write_value(text: &mut String, value: Option<i128>) -> Result<(), OutOfMemory>
    ensures { OnOk result (string_bytes text.new ≡ string_bytes text.old ++ value_text value) }
{
    text.push_str("{\"value\":")?;
    write_number_or_null(text, value)?;
    text.push('}')?;
    Ok(())
}

// Appends a number, or null where there is none.
fn write_number_or_null(text: &mut String, value: Option<i128>) -> Result<(), OutOfMemory>
    ensures { OnOk result (string_bytes text.new ≡ string_bytes text.old ++ number_text value) }
{
    match value {
        Some(n) => write_number(text, n)?,
        None => text.push_str("null")?,
    }
    Ok(())
}

// Appends a number.
fn write_number<N: Integer>(text: &mut String, n: N) -> Result<(), OutOfMemory>
    ensures { OnOk result (string_bytes text.new ≡ string_bytes text.old ++ N.text n) }
{
    let mut digits = Buffer::new();
    text.push_str(digits.format(n))?;
    Ok(())
}
