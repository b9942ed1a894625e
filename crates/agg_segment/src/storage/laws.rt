//! What holds of keys by class, as their definition says it, and of equality.
ghost use Rattle.std.specs.Prelude.{◌≡◌, List};
ghost use Rattle.std.specs.List.Sorted.{IsPermutation};
ghost use Rattle.agg_values.specs.Laws.{IsSameness};
ghost use Rattle.agg_values.specs.TypedKey.{CompositeIntermediateKey};
ghost use Rattle.agg_segment.specs.storage.Document.{by_class};

use crate::storage::{ColumnType, FieldValue, OrdHit, Sign};

/// Keys by class are the same keys in another order, and stay as they are when they are put by
/// class again.
pub fn by_class_keeps_the_keys()
    ensures permutation { (keys : List CompositeIntermediateKey)
        → IsPermutation (by_class keys) keys }
    ensures idempotent { (keys : List CompositeIntermediateKey)
        → by_class (by_class keys) ≡ by_class keys }
{}

/// Equality goes by variant and content.
pub fn values_types_and_hits_are_equal_by_content()
    ensures values { IsSameness ⟦<FieldValue as PartialEq>⟧.eq }
    ensures types { IsSameness ⟦<ColumnType as PartialEq>⟧.eq }
    ensures hits { IsSameness ⟦<OrdHit as PartialEq>⟧.eq }
    ensures signs { IsSameness ⟦<Sign as PartialEq>⟧.eq }
{}
