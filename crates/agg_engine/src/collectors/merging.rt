//! The results of segments, merged in their order.
ghost use Rattle.std.specs.Prelude.{◌≡◌, ◌+◌, ◌≤◌, All, IfErr, IfOk, List, OnOk, drop, take};
ghost use Rattle.std.specs.Vec.Iter.{into_iter_items, into_iter_len};
ghost use Rattle.agg_segment.specs.storage.Document.{Fields, HasNumbersOf64Bits};
ghost use Rattle.agg_segment.specs.Query.{matches};
ghost use Rattle.agg_segment.specs.declared.query.QueryTree.{QueryTree as Tree};
ghost use Rattle.agg_request_tree.specs.Request.{Request};
ghost use Rattle.agg_results.specs.StandsFor.{StandsFor};
ghost use Rattle.agg_engine.specs.collectors.Fruits.{IsMergeCause, StandForEach, joined};

use agg_results::{IntermediateAggregationResults, MergeError};
use agg_values::ItemList;
use std::alloc::Global;
use std::vec::IntoIter;

/// Results, merged in their order; of none, results without names. They are merged in halves, so
/// that no entry is moved more often than their number can be halved.
pub fn merged(
    alloc: Global,
    fruits: ItemList<IntermediateAggregationResults>,
) -> Result<IntermediateAggregationResults, MergeError>
    ensures ok { IfOk result (λ whole. (request : Request Tree) (lists : List (List Fields))
        → StandForEach request lists fruits
        → StandsFor matches request (joined lists) whole.results) }
    ensures cause { IfErr result (λ error. (request : Request Tree) (lists : List (List Fields))
        → All HasNumbersOf64Bits (joined lists) → StandForEach request lists fruits
        → IsMergeCause request (joined lists) error) }
{
    let fruits = fruits.into_vec();
    let count = fruits.len();
    merged_next(alloc, &mut fruits.into_iter(), count)
}

// The next results, so many of them, merged in their order.
fn merged_next(
    alloc: Global,
    fruits: &mut IntoIter<IntermediateAggregationResults>,
    count: usize,
) -> Result<IntermediateAggregationResults, MergeError>
    requires { count ≤ into_iter_len fruits.old }
    ensures rest { OnOk result
        (into_iter_items fruits.new ≡ drop count (into_iter_items fruits.old)) }
    ensures len { OnOk result (into_iter_len fruits.new + count ≡ into_iter_len fruits.old) }
    ensures ok { IfOk result (λ whole. (request : Request Tree) (lists : List (List Fields))
        → StandForEach request lists (take count (into_iter_items fruits.old))
        → StandsFor matches request (joined lists) whole.results) }
    ensures cause { IfErr result (λ error. (request : Request Tree) (lists : List (List Fields))
        → All HasNumbersOf64Bits (joined lists)
        → StandForEach request lists (take count (into_iter_items fruits.old))
        → IsMergeCause request (joined lists) error) }
{
    match count {
        0 => Ok(IntermediateAggregationResults::new(alloc)),
        1 => Ok(fruits.next().unwrap()),
        _ => {
            let mut whole = merged_next(alloc, fruits, count / 2)?;
            let later = merged_next(alloc, fruits, count - count / 2)?;
            whole.merge_fruits(later)?;
            Ok(whole)
        }
    }
}
