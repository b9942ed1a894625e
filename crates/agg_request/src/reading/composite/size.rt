//! How many groups a page of a composite has room for.
ghost use Rattle.std.specs.Prelude.{◌≡◌, ◌↔◌, IsTrue, codes};
ghost use Rattle.serde_json.specs.View.{view};
ghost use Rattle.agg_request.specs.reading.CompositeJson.{IsSizeOf};
ghost use Rattle.agg_request.specs.json_values.Json.{IsFloat};
ghost use Rattle.agg_request.specs.json_values.Unsupported.{HasFloatAt};
ghost use Rattle.agg_request.specs.json_values.Reading.{IsReading};

use crate::json_values::ReadError;
use crate::json_values::json_value::small_number;
use serde_json::Value;

/// The size of a body, which has to be there.
pub fn read_size(body: &Value) -> Result<u32, ReadError>
    ensures { IsReading (λ lenient. IsSizeOf lenient (view body.now))
        (HasFloatAt (codes "size") (view body.now)) result }
{
    let Some(size) = body.get("size") else {
        return Err(ReadError::Grammar);
    };
    if size.is_f64() {
        return Err(ReadError::Unsupported);
    }
    small_number(size).ok_or(ReadError::Grammar)
}
