//! Values from the texts of keys.
ghost use Rattle.std.specs.Prelude.{◌≡◌, ◌≢◌, IfNone, IfSome};
ghost use Rattle.serde_json.specs.View.{view};
ghost use Rattle.agg_segment.specs.storage.Document.{said_key};
ghost use Rattle.agg_segment.specs.declared.storage.document.FieldValue.{FieldValue as Said};
ghost use Rattle.agg_request.specs.json_values.Query.{Says};
ghost use Rattle.agg_request.specs.json_values.Unsupported.{HasUnsupportedAt, IsUnsupportedText};
ghost use Rattle.agg_request.specs.json_values.Query.{SaysAt};
ghost use Rattle.agg_request.specs.json_values.Reading.{IsReading};

use crate::json_values::ReadError;
use crate::json_values::members::text_at;
use agg_segment::FieldValue;
use agg_values::{AfterKey, CompositeIntermediateKey, Text};
use serde_json::Value;
use std::alloc::Global;

/// The value that the text of a member says.
pub fn read_value_at(alloc: Global, body: &Value, name: &str) -> Result<FieldValue, ReadError>
    ensures { IsReading (λ lenient. SaysAt lenient name.now (view body.now))
        (HasUnsupportedAt name.now (view body.now)) result }
{
    let Some(text) = text_at(body, name) else {
        return Err(ReadError::Grammar);
    };
    read_value(alloc, text)
}

fn read_value(alloc: Global, text: &str) -> Result<FieldValue, ReadError>
    ensures { IsReading (λ lenient. Says lenient text.now) (IsUnsupportedText text.now) result }
{
    let key = AfterKey::read(alloc, &Text::copy_of(alloc, text)?)?;
    value_of(key.into()).ok_or(ReadError::Grammar)
}

// The value that a key is.
fn value_of(key: CompositeIntermediateKey) -> Option<FieldValue>
    ensures some { IfSome result (λ value. said_key value ≡ key) }
    ensures none { IfNone result ((value : Said) → said_key value ≢ key) }
{
    Some(match key {
        CompositeIntermediateKey::Bool(b) => FieldValue::Bool(b),
        CompositeIntermediateKey::Str(text) => FieldValue::Str(text),
        CompositeIntermediateKey::I64(n) => FieldValue::I64(n),
        CompositeIntermediateKey::U64(n) => FieldValue::U64(n),
        CompositeIntermediateKey::DateTime(ns) => FieldValue::Date(ns),
        CompositeIntermediateKey::IpAddr(address) => FieldValue::Ip(address),
        CompositeIntermediateKey::Null => return None,
    })
}
