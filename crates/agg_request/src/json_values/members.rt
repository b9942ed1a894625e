//! The members of bodies in JSON.
ghost use Rattle.std.specs.Prelude.{◌≡◌, map, option_map};
ghost use Rattle.serde_json.specs.View.{view};
ghost use Rattle.agg_request.specs.json_values.Json.{IsField, has_only, is_among, text_at};
ghost use Rattle.agg_request.specs.json_values.Reading.{IsReading};

use crate::json_values::ReadError;
use agg_values::Text;
use serde_json::Value;
use std::alloc::Global;

/// Whether a value is an object whose members all have such names.
pub fn has_only(value: &Value, names: &[&str]) -> bool
    ensures { result ≡ has_only (map (λ n. n.now) names.now) (view value.now) }
{
    let Some(members) = value.as_object() else {
        return false;
    };
    for (name, _) in members.iter() {
        if !is_among(name.as_str(), names) {
            return false;
        }
    }
    true
}

/// Whether a name is one of these.
pub fn is_among(name: &str, names: &[&str]) -> bool
    ensures { result ≡ is_among name.now (map (λ n. n.now) names.now) }
{
    for other in names {
        if name == *other {
            return true;
        }
    }
    false
}

/// The text of a member.
pub fn text_at<'a>(value: &'a Value, name: &str) -> Option<&'a str>
    ensures { option_map (λ text. text.now) result ≡ text_at name.now (view value.now) }
{
    value.get(name)?.as_str()
}

/// The name of the field that a body names.
pub fn read_field(alloc: Global, body: &Value) -> Result<Text, ReadError>
    ensures { IsReading (λ lenient. IsField (view body.now)) ⊥ result }
{
    let Some(field) = text_at(body, "field") else {
        return Err(ReadError::Grammar);
    };
    Ok(Text::copy_of(alloc, field)?)
}
