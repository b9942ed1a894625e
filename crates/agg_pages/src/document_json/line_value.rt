//! The JSON value of a line.
ghost use Rattle.std.specs.Prelude.{◌≡◌, Some, None, IfOk, IsErrOf};
ghost use Rattle.serde_json.specs.Read.{read};
ghost use Rattle.serde_json.specs.View.{view};

use crate::document_json::InputError;
use serde_json::Value;
use std::alloc::Global;

/// The value of a line.
pub fn parse(alloc: Global, line: &str) -> Result<Value, InputError>
    ensures ok { IfOk result (λ value. read line.now ≡ Some (view value)) }
    ensures not_input { IsErrOf result InputError.NotInput → read line.now ≡ None }
{
    Ok(Value::from_str(alloc, line)?)
}
