//! A page of the groups.
ghost use Rattle.std.specs.Prelude.{◌≡◌, ◌<◌, IfErr, IfOk, List, length};
ghost use Rattle.agg_segment.specs.storage.Document.{Fields};
ghost use Rattle.agg_segment.specs.Snapshot.{snapshots_documents};
ghost use Rattle.peslumok_records.specs.record_index.Index.{AreOneOf};
ghost use Rattle.peslumok_front.specs.front.Causes.{HasNoPage};
ghost use Rattle.peslumok_front.specs.front.Pages.{IsPageOf, IsPageWalk};

use crate::front::asked::Asked;
use crate::front::failure::Failure;
use crate::grouping::{AskedPage, GROUPS, request_of};
use agg_cache::LimitsLedger;
use agg_engine::{Snapshot, Walk, walk_pages};
use agg_results::final_results::AggregationResults;
use agg_segment::{QueryTree, Schema};
use agg_values::{ItemList, Steps, Text};
use std::alloc::Global;
use std::marker::Brand;
use std::sync::ledger::{Blank, Ledger};

/// Records, and what is asked of them.
#[derive(Clone, Copy)]
pub struct Question<'q, 'a> {
    pub asked: &'q Asked<'a>,
    pub query: &'q QueryTree,
    pub snapshots: &'q ItemList<Snapshot>,
}

/// The results of a page of the groups.
pub fn page_of(
    alloc: Global,
    question: &Question<'_, '_>,
    page: AskedPage,
) -> Result<AggregationResults, Failure>
    requires { length question.now.snapshots.now ≡ 1 }
    ensures page { IfOk result (λ results. (documents : List Fields)
        → AreOneOf documents page.size (snapshots_documents question.now.snapshots.now)
        → IsPageOf question.now.asked.now.grouping question.now.query.now documents page
        results) }
    ensures cause { IfErr result (λ why. (documents : List Fields)
        → AreOneOf documents page.size (snapshots_documents question.now.snapshots.now)
        → HasNoPage question.now.asked.now.grouping question.now.query.now documents page why) }
{
    let Walk { pages, .. } = walk_page(alloc, question, page)?;
    let mut pages = pages.into_vec();
    Ok(pages.remove(0))
}

/// The walk over a page of the groups.
pub fn walk_page(
    alloc: Global,
    question: &Question<'_, '_>,
    page: AskedPage,
) -> Result<Walk, Failure>
    ensures walk { IfOk result (λ walk.
        IsPageWalk question.now.asked.now.grouping question.now.query.now
        (snapshots_documents question.now.snapshots.now) page walk.pages walk.ended) }
    ensures cause { IfErr result (λ why. (documents : List Fields)
        → AreOneOf documents page.size (snapshots_documents question.now.snapshots.now)
        → HasNoPage question.now.asked.now.grouping question.now.query.now documents page why) }
{
    walk_over::<Brand>(alloc, question, page, Blank::new(1))
}

// The walk over a page of the groups. A blank makes the counter of steps, which nobody reads.
fn walk_over<L: Ledger>(
    alloc: Global,
    question: &Question<'_, '_>,
    page: AskedPage,
    blank: Blank,
) -> Result<Walk, Failure>
    requires name { blank.name ≡ L.name }
    requires parts { blank.parts ≡ L.parts }
    requires shared { 0 < L.parts }
    ensures walk { IfOk result (λ walk.
        IsPageWalk question.now.asked.now.grouping question.now.query.now
        (snapshots_documents question.now.snapshots.now) page walk.pages walk.ended) }
    ensures cause { IfErr result (λ why. (documents : List Fields)
        → AreOneOf documents page.size (snapshots_documents question.now.snapshots.now)
        → HasNoPage question.now.asked.now.grouping question.now.query.now documents page why) }
{
    let mut steps: Steps<L> = Steps::new(blank);
    let mut limits = LimitsLedger::new(Some(u64::MAX), Some(u32::MAX));
    let request = request_of(alloc, &question.asked.grouping, page)?;
    let name = Text::copy_of(alloc, GROUPS)?;
    Ok(walk_pages(
        alloc,
        &mut limits,
        &Schema::new(alloc),
        &request,
        &name,
        question.query,
        question.snapshots,
        &mut steps,
    )?)
}
