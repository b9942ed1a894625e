//! What holds of the equality of errors.
ghost use Rattle.agg_values.specs.Laws.{IsSameness};

use crate::BuildError;

/// Equality goes by variant.
pub fn build_errors_are_equal_by_variant()
    ensures { IsSameness ⟦<BuildError as PartialEq>⟧.eq }
{}
