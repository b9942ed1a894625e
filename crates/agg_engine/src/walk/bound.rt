//! Where the next page begins.
ghost use Rattle.std.specs.Prelude.{IfOk};
ghost use Rattle.agg_engine.specs.PageAnswers.{IsShown};
ghost use Rattle.agg_engine.specs.Walk.{after_in};

use agg_results::{AggregationResult, AggregationResults, BucketResult};
use agg_values::{AfterKey, NameMap, OutOfMemory, Text, copied_after_key};
use std::alloc::Global;

/// The after key that the results of a name show, if they show one.
pub fn next_after(
    alloc: Global,
    results: &AggregationResults,
    name: &Text,
) -> Result<Option<NameMap<AfterKey>>, OutOfMemory>
    ensures { IfOk result (λ next. IsShown next (after_in name.now results.now)) }
{
    let Some(AggregationResult::BucketResult(BucketResult::Composite { after_key, .. })) = results
        .0
        .get(name)
    else {
        return Ok(None);
    };
    if after_key.is_empty() {
        return Ok(None);
    }
    Ok(Some(copied_after_key(alloc, after_key)?))
}
