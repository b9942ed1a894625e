//! Composites to JSON.
ghost use Rattle.std.specs.Prelude.{◌≡◌, false, true, IfOk, OnOk};
ghost use Rattle.serde_json.specs.View.{members_view, view};
ghost use Rattle.agg_request.specs.reading.CompositeJson.{IsCompositeJson, IsKeyJson};
ghost use Rattle.agg_request.specs.json_values.Json.{EachNamedIs};
ghost use Rattle.agg_request.specs.ReadBack.{AreKeysReadBack, IsWritten};
ghost use Rattle.agg_request.specs.Written.{have_no_null_min};
ghost use Rattle.agg_request.specs.WrittenJson.{data_of_composite, data_of_key, with_after};

use super::sources::write_sources;
use super::words::write_size;
use agg_request_tree::CompositeAggregation;
use agg_values::{AfterKey, NameMap, OutOfMemory};
use serde_json::{Map, Value, put};
use std::alloc::Global;

/// The body of a composite.
pub fn write_composite(
    alloc: Global,
    composite: &CompositeAggregation,
) -> Result<Value, OutOfMemory>
    requires { have_no_null_min composite.now.sources ≡ true }
    ensures { IfOk result (λ value.
        IsWritten data_of_composite (IsCompositeJson false) (view value) composite.now) }
{
    let sources = write_sources(alloc, composite.sources.as_slice())?;
    let mut body = Map::new(alloc);
    put(&mut body, alloc, "size", write_size(composite.size))?;
    put(&mut body, alloc, "sources", Value::from(sources))?;
    put_after(alloc, &mut body, &composite.after)?;
    Ok(Value::from(body))
}

// Adds the keys after which a page begins, where there are any.
fn put_after(
    alloc: Global,
    body: &mut Map<String, Value>,
    after: &NameMap<AfterKey>,
) -> Result<(), OutOfMemory>
    ensures written { OnOk result (members_view body.new.entries
        ≡ with_after after.now (members_view body.old.entries)) }
    ensures says { OnOk result (AreKeysReadBack after.now) }
{
    if !after.is_empty() {
        put(
            body,
            alloc,
            "after",
            Value::from(write_after(alloc, after)?),
        )?;
    }
    Ok(())
}

// The texts of the keys after which a page begins, by the names of sources.
fn write_after(alloc: Global, after: &NameMap<AfterKey>) -> Result<Map<String, Value>, OutOfMemory>
    ensures { IfOk result (λ members. EachNamedIs (IsWritten data_of_key (IsKeyJson false))
        (members_view members.entries) after.now) }
{
    let mut members = Map::new(alloc);
    for (name, key) in after.iter() {
        put(&mut members, alloc, name.as_str(), write_key(alloc, key)?)?;
    }
    Ok(members)
}

/// The text of a key.
pub(super) fn write_key(alloc: Global, key: &AfterKey) -> Result<Value, OutOfMemory>
    ensures { IfOk result (λ value.
        IsWritten data_of_key (IsKeyJson false) (view value) key.now) }
{
    let text = key.write(alloc)?;
    Ok(Value::try_from_str(alloc, text.as_str())?)
}
