//! What holds of refusals.
ghost use Rattle.agg_values.specs.Laws.{IsSameness};

use crate::json_values::ReadError;

/// Equality of refusals goes by variant.
pub fn read_error_equality_is_sameness()
    ensures { IsSameness ⟦<ReadError as PartialEq>⟧.eq }
{}
