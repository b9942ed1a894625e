//! The walk: a page for each reached snapshot.
mod bound;
mod checks;
mod error;
mod finish;
mod page;

ghost use Rattle.std.specs.Prelude.{◌≡◌, ◌≤◌, ◌+◌, All, IfErr, IfOk, OnOk, IsErrOf};
ghost use Rattle.agg_values.specs.declared.error.InvalidArgument.{InvalidArgument as Fault};
ghost use Rattle.agg_values.specs.declared.request_error.AggregationError.TheVariants as error;
ghost use Rattle.agg_values.specs.declared.request_error.DateHistogramParseError as text;
ghost use Rattle.agg_values.specs.Nothing.{NoneIs};
ghost use Rattle.agg_request_tree.specs.Matching.{built_matches};
ghost use Rattle.agg_results.specs.final_results.BucketCount.{results_buckets};
ghost use Rattle.agg_engine.specs.Refusals.{WalkFailsAtMost, WalkRefusedAtLeast};
ghost use Rattle.agg_segment.specs.Snapshot.{snapshots_documents};
ghost use Rattle.agg_engine.specs.Steps.{TakesAtMost, past_pages};
ghost use Rattle.agg_engine.specs.Walk.{IsWalk, MayBeAsked};
ghost use Rattle.agg_engine.specs.declared.walk.error.WalkError.{WalkError as Refusal};

use crate::snapshot_results::PageRequest;
use agg_cache::LimitsLedger;
use agg_engine_tree::segment_context::AggContextParams;
use agg_request_tree::{Aggregations, check_request};
use agg_results::AggregationResults;
use agg_segment::{QueryTree, Schema, Snapshot};
use agg_values::{InvalidArgument, ItemList, Steps, Text, copied_after_key};
pub use error::WalkError;
use page::{set_page, snapshot_page};
use std::alloc::Global;
use std::sync::ledger::Ledger;

/// The pages of a walk, one for each reached snapshot.
#[derive(Drop)]
pub struct Walk {
    pub pages: ItemList<AggregationResults>,
    /// Whether some reached page isn't full.
    pub ended: bool,
}

/// Pages over the groups of a named composite. The first snapshot is reached with the request as it
/// is, and a later one where the page before is full, with that page's last tuple as its bound.
/// Each builder of the request is asked once for its query, for the schema, before any snapshot.
/// An Ok is the walk of a request that may be asked, and no page of it has to be refused. A walk is
/// refused where the bytes of a segment's collectors pass the memory limit: never where there is
/// room for the segment's roof, and always where there is none for its low roof.
pub fn walk_pages<L: Ledger>(
    alloc: Global,
    limits: &mut LimitsLedger,
    schema: &Schema,
    request: &Aggregations,
    name: &Text,
    query: &QueryTree,
    snapshots: &ItemList<Snapshot>,
    steps: &mut Steps<L>,
) -> Result<Walk, WalkError>
    ensures pages { IfOk result (λ walk. IsWalk
        (built_matches (λ b. tree_for (b.builder.vtable, b.builder.value) schema.now))
        name.now query.now request.now (snapshots_documents snapshots.now)
        walk.pages walk.ended) }
    ensures asked { OnOk result (MayBeAsked
        (λ b. tree_for (b.builder.vtable, b.builder.value) schema.now)
        name.now request.now (snapshots_documents snapshots.now)) }
    ensures fits { OnOk result (NoneIs (WalkRefusedAtLeast
        (built_matches (λ b. tree_for (b.builder.vtable, b.builder.value) schema.now))
        limits.old name.now query.now request.now (snapshots_documents snapshots.now))) }
    ensures buckets { IfOk result (λ walk.
        All (λ page. results_buckets page ≤ limits.old.bucket_limit) walk.pages) }

    // Each other answer has its cause.
    ensures cause { IfErr result (WalkFailsAtMost
        (λ b. tree_for (b.builder.vtable, b.builder.value) schema.now)
        limits.old name.now query.now request.now (snapshots_documents snapshots.now)) }

    // Whatever is charged is given back. Steps never fall. Whatever is answered, there are at most
    // three for each occurrence of a composite of the request in a reached snapshot. At an Ok there
    // is at least one for each occurrence past the bound of a page. A refusal before any snapshot
    // takes none.
    ensures limits { limits.new ≡ limits.old }
    ensures later { steps.old ≤ steps.new }
    ensures most { TakesAtMost
        (built_matches (λ b. tree_for (b.builder.vtable, b.builder.value) schema.now))
        query.now name.now request.now (snapshots_documents snapshots.now)
        steps.old steps.new }
    ensures least { IfOk result (λ walk. steps.old
        + past_pages name.now query.now request.now (snapshots_documents snapshots.now) walk.pages
        ≤ steps.new) }
    ensures faults_first { (fault : Fault) → IsErrOf result (WalkError.Invalid fault)
        → steps.new ≡ steps.old }
    ensures texts_first { (fault : text.DateHistogramParseError)
        → IsErrOf result (WalkError.Aggregation (error.DateHistogramParseError fault))
        → steps.new ≡ steps.old }
    ensures name_first { IsErrOf result WalkError.UnknownComposite → steps.new ≡ steps.old }
    ensures builders_first { IsErrOf result WalkError.QueryBuild → steps.new ≡ steps.old }
{
    check_request(alloc, request)?;
    if checks::some_page_has_no_room(snapshots.as_slice()) {
        return Err(WalkError::Invalid(InvalidArgument::ZeroSize));
    }
    let Some(composite) = checks::named_composite(request, name) else {
        return Err(WalkError::UnknownComposite);
    };
    let mut params = AggContextParams::new(alloc, request, schema)?;
    let mut after = copied_after_key(alloc, &composite.after)?;
    let mut pages = ItemList::new(alloc);
    for snapshot in snapshots.as_slice() {
        set_page(alloc, &mut params, name, snapshot.page_size, after)?;
        let page = PageRequest {
            request,
            params: &params,
            query,
        };
        let answer = snapshot_page(alloc, &page, snapshot.segments.as_slice(), limits, steps);
        let results = answer?;
        let next = bound::next_after(alloc, &results, name)?;
        pages.push(results)?;
        match next {
            Some(next) => after = next,
            None => return Ok(Walk { pages, ended: true }),
        }
    }
    Ok(Walk {
        pages,
        ended: false,
    })
}
