//! Objects by their members.
ghost use Rattle.std.specs.Prelude.{◌≡◌, IfOk};
ghost use Rattle.serde_json.specs.View.{members_view, view};
ghost use Rattle.agg_request.specs.json_values.Json.{alone};
ghost use Rattle.agg_request.specs.WrittenJson.{field_members};

use agg_values::{OutOfMemory, Text};
use serde_json::{Map, Value, json, put};
use std::alloc::Global;

/// The object of this one member.
pub fn object_of(alloc: Global, name: &str, value: Value) -> Result<Value, OutOfMemory>
    ensures { IfOk result (λ whole. view whole ≡ alone name.now (view value)) }
{
    Ok(json!(in alloc; {name: value})?)
}

/// The one member that names a field.
pub fn field_member(alloc: Global, field: &Text) -> Result<Map<String, Value>, OutOfMemory>
    ensures { IfOk result (λ members. members_view members.entries ≡ field_members field.now) }
{
    let mut members = Map::new(alloc);
    put(
        &mut members,
        alloc,
        "field",
        Value::try_from_str(alloc, field.as_str())?,
    )?;
    Ok(members)
}
