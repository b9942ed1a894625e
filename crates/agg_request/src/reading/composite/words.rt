//! What a body says by words and truth values.
ghost use Rattle.std.specs.Prelude.{◌≡◌, ◌≢◌, IfNone, IfSome, codes};
ghost use Rattle.serde_json.specs.Find.{get};
ghost use Rattle.serde_json.specs.View.{view};
ghost use Rattle.agg_values.specs.declared.order.Order.{Order as Directed};
ghost use Rattle.agg_values.specs.declared.order.Order.TheVariants.{Asc};
ghost use Rattle.agg_values.specs.declared.order.MissingOrder.{MissingOrder as Placed};
ghost use Rattle.agg_values.specs.declared.order.MissingOrder.TheVariants.{Default};
ghost use Rattle.agg_request.specs.reading.CompositeJson.{IsFlag, IsLeastOf};
ghost use Rattle.agg_request.specs.reading.Unsupported.{HasUnsupportedLeast};
ghost use Rattle.agg_request.specs.reading.CompositeJson.{IsTextAt, IsWordOr, missing_order_word};
ghost use Rattle.agg_request.specs.reading.CompositeJson.{order_word};
ghost use Rattle.agg_request.specs.json_values.Reading.{IsReading};

use super::after::read_key;
use crate::json_values::ReadError;
use crate::json_values::json_value::present;
use agg_values::{AfterKey, CompositeIntermediateKey, MissingOrder, Order, Text};
use serde_json::Value;
use std::alloc::Global;

/// The order of a body, `asc` where it names none.
pub fn order(body: &Value) -> Result<Order, ReadError>
    ensures { IsReading (λ lenient. IsWordOr Asc order_word (get (codes "order") (view body.now)))
        ⊥ result }
{
    let Some(found) = body.get("order") else {
        return Ok(Order::Asc);
    };
    let Some(word) = found.as_str() else {
        return Err(ReadError::Grammar);
    };
    order_of(word).ok_or(ReadError::Grammar)
}

/// The order of a word.
pub fn order_of(word: &str) -> Option<Order>
    ensures some { IfSome result (λ order. order_word order ≡ word.now) }
    ensures none { IfNone result ((order : Directed) → order_word order ≢ word.now) }
{
    match word {
        "asc" => Some(Order::Asc),
        "desc" => Some(Order::Desc),
        _ => None,
    }
}

/// The missing order of a body, `default` where it names none.
pub fn missing_order(body: &Value) -> Result<MissingOrder, ReadError>
    ensures { IsReading (λ lenient. IsWordOr Default missing_order_word
        (get (codes "missing_order") (view body.now))) ⊥ result }
{
    let Some(found) = body.get("missing_order") else {
        return Ok(MissingOrder::Default);
    };
    let Some(word) = found.as_str() else {
        return Err(ReadError::Grammar);
    };
    missing_order_of(word).ok_or(ReadError::Grammar)
}

// The missing order of a word.
fn missing_order_of(word: &str) -> Option<MissingOrder>
    ensures some { IfSome result (λ place. missing_order_word place ≡ word.now) }
    ensures none { IfNone result ((place : Placed) → missing_order_word place ≢ word.now) }
{
    match word {
        "default" => Some(MissingOrder::Default),
        "first" => Some(MissingOrder::First),
        "last" => Some(MissingOrder::Last),
        _ => None,
    }
}

/// The least value of a body, where it is there. Null is none.
pub fn min(alloc: Global, body: &Value) -> Result<Option<AfterKey>, ReadError>
    ensures { IsReading (λ lenient. IsLeastOf lenient (view body.now))
        (HasUnsupportedLeast (view body.now)) result }
{
    let Some(found) = present(body, "min") else {
        return Ok(None);
    };
    let key = read_key(alloc, found)?;
    if let CompositeIntermediateKey::Null = &key.0 {
        return Err(ReadError::Grammar);
    }
    Ok(Some(key))
}

/// The text of a member, where it is there.
pub fn text_at(alloc: Global, body: &Value, name: &str) -> Result<Option<Text>, ReadError>
    ensures { IsReading (λ lenient. IsTextAt name.now (view body.now)) ⊥ result }
{
    let Some(found) = present(body, name) else {
        return Ok(None);
    };
    let Some(text) = found.as_str() else {
        return Err(ReadError::Grammar);
    };
    Ok(Some(Text::copy_of(alloc, text)?))
}

/// Whether a body gives documents without a value a bucket, false where it doesn't tell.
pub fn missing_bucket(body: &Value) -> Result<bool, ReadError>
    ensures { IsReading (λ lenient. IsFlag (get (codes "missing_bucket") (view body.now)))
        ⊥ result }
{
    let Some(found) = body.get("missing_bucket") else {
        return Ok(false);
    };
    found.as_bool().ok_or(ReadError::Grammar)
}
