//! The value that a text is, or why it is none.
ghost use Rattle.std.specs.Prelude.{◌≡◌, ◌≢◌, Some, Ok, Err, IfOk, IfErr, false, true};
ghost use Rattle.agg_segment.specs.declared.storage.document.FieldValue.{FieldValue};
ghost use Rattle.peslumok_texts.specs.declared.fields.error.ValueError.{ValueError};
ghost use Rattle.peslumok_records.specs.held.Causes.{is_encoding, is_fault};

use crate::held::RecordCause;
use agg_segment::storage::FieldValue;
use peslumok_texts::fields::ValueError;
use std::alloc::Global;

/// The value, or why a text is none.
pub fn value_or_cause(
    alloc: Global,
    text: &str,
    value: Result<FieldValue, ValueError>,
) -> Result<Option<FieldValue>, RecordCause>
    ensures ok { IfOk result (λ found. (v : FieldValue) × (value ≡ Ok v) × (found ≡ Some v)) }
    ensures cause { IfErr result (λ cause. is_encoding cause ≡ false) }
    ensures none { IfErr result (λ cause. is_fault cause ≡ true
        → (why : ValueError) × (value ≡ Err why) × (why ≢ ValueError.OutOfMemory)) }
{
    match value {
        Ok(value) => Ok(Some(value)),
        Err(why) => Err(RecordCause::of_value(alloc, text, why)),
    }
}
