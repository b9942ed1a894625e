//! The value that a cell is, by the type of its field.
ghost use Rattle.std.specs.Prelude.{◌≡◌, Some, None, IfOk, IfErr, false, true, option_to_list};
ghost use Rattle.peslumok_records.specs.held.Causes.{is_encoding, is_fault};
ghost use Rattle.peslumok_records.specs.cells.Cells.{cell_values};

use crate::held::{RecordCause, value_or_cause};
use agg_segment::storage::FieldValue;
use peslumok_texts::fields::{FieldType, value_of_text};
use std::alloc::Global;

/// The value of a cell. An empty one has none.
pub fn value_of_cell(
    alloc: Global,
    cell: &str,
    of: FieldType,
) -> Result<Option<FieldValue>, RecordCause>
    ensures ok { IfOk result (λ found. cell_values of cell.now ≡ Some (option_to_list found)) }
    ensures cause { IfErr result (λ cause. is_encoding cause ≡ false) }
    ensures none { IfErr result (λ cause. is_fault cause ≡ true → cell_values of cell.now ≡ None) }
{
    if cell.is_empty() {
        return Ok(None);
    }
    value_or_cause(alloc, cell, value_of_text(alloc, cell, of))
}
