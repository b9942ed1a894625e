//! The final results of a request, name by name. The last name's result is taken out first, so that
//! no other moves.
ghost use Rattle.std.specs.Prelude.{◌≡◌, IfOk, OnOk, map, reverse};
ghost use Rattle.std.specs.List.Sorted.{IsStrictlySortedBy};
ghost use Rattle.std.specs.Map.{keys_of};
ghost use Rattle.agg_values.specs.Names.{name_cmp, put, value_of};
ghost use Rattle.agg_results.specs.intermediate_results.Final.{final_by_name, final_result};

use super::shown::shown_result;
use crate::final_results::AggregationResult;
use crate::intermediate_results::IntermediateAggregationResults;
use agg_request_tree::Aggregation;
use agg_values::{NameMap, OutOfMemory, Text};

/// The final result of each name.
#[cycle(shown)]
pub fn shown_by_name<B: Drop>(
    req: &NameMap<Aggregation<B>>,
    held: IntermediateAggregationResults,
) -> Result<NameMap<AggregationResult>, OutOfMemory>
    ensures { IfOk result (λ results. results ≡ final_by_name req.now held.results) }
{
    let mut results = NameMap::new(req.allocator());
    if req.is_empty() {
        return Ok(results);
    }
    let mut last_first = shown_last_first(req, held)?;
    for (name, _) in req.iter() {
        if let Some(shown) = last_first.pop() {
            put(&mut results, name, shown)?;
        }
    }
    Ok(results)
}

// Puts the result of a name.
fn put(
    results: &mut NameMap<AggregationResult>,
    name: &Text,
    shown: AggregationResult,
) -> Result<(), OutOfMemory>
    ensures { OnOk result (results.new ≡ put name.now shown results.old) }
{
    let name = name.try_clone(results.allocator())?;
    results.insert(name, shown)?;
    Ok(())
}

// The final result of each name, the last name's first.
#[cycle(shown)]
fn shown_last_first<B: Drop>(
    req: &NameMap<Aggregation<B>>,
    mut held: IntermediateAggregationResults,
) -> Result<Vec<AggregationResult>, OutOfMemory>
    ensures { IfOk result (λ shown. reverse shown.items
        ≡ map (λ a. final_result a.1 (value_of a.0 held.results)) req.now) }
{
    let alloc = req.allocator();
    let mut wanted = entries_of(req)?;
    let mut last_first = Vec::with_capacity(alloc, wanted.len())?;
    while let Some((name, aggregation)) = wanted.pop() {
        last_first.push(shown_result(alloc, aggregation, held.results.remove(name))?)?;
    }
    Ok(last_first)
}

// The names of a request with their aggregations.
fn entries_of<B: Drop>(
    req: &NameMap<Aggregation<B>>,
) -> Result<Vec<(&Text, &Aggregation<B>)>, OutOfMemory>
    ensures entries { IfOk result
        (λ entries. map (λ e. (e.0.now, e.1.now)) entries.items ≡ req.now) }
    ensures ascending { IsStrictlySortedBy name_cmp (keys_of req.now) }
{
    Ok(req.iter().collect(req.allocator())?)
}
