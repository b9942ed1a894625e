//! The text of the groups with the most documents.
ghost use Rattle.std.specs.Prelude.{◌≡◌, ℕ, List, IfErr, IfOk, None, OnOk, Some, length};
ghost use Rattle.std.specs.Io.KnownBytes.{Appends};
ghost use Rattle.agg_segment.specs.storage.Document.{Fields};
ghost use Rattle.agg_segment.specs.Snapshot.{snapshots_documents};
ghost use Rattle.agg_streams.specs.Causes.{Rose};
ghost use Rattle.peslumok_records.specs.record_index.Index.{AreOneOf};
ghost use Rattle.peslumok_front.specs.front.Answer.{HasMost, IsWritten};
ghost use Rattle.peslumok_front.specs.front.Causes.{HasNoText};
ghost use Rattle.peslumok_front.specs.front.Pages.{room_of};
ghost use Rattle.peslumok_front.specs.front.Written.{groups_in, total_in};

use crate::front::check::first_after;
use crate::front::failure::Failure;
use crate::front::page::{Question, page_of};
use crate::front::pages::is_last;
use crate::front::written::{PageWriter, next_after};
use crate::grouping::{AskedPage, GROUPS, TOTAL};
use crate::top_groups::TopGroups;
use agg_results::final_results::{
    AggregationResult, AggregationResults, BucketResult, CompositeBucketEntry, FilterBucketResult,
};
use agg_streams::sink::{Sink, write_all};
use agg_values::{AfterKey, NameMap, OutOfMemory, Text};
use std::alloc::Global;

/// Writes the groups with the most documents, so many of those of all pages from the first key on,
/// and the total of all records.
pub fn write_top<W: Sink>(
    alloc: Global,
    question: &Question<'_, '_>,
    count: u32,
    sink: &mut W,
) -> Result<(), Failure>
    requires { length question.now.snapshots.now ≡ 1 }
    ensures written { OnOk result ((documents : List Fields)
        → AreOneOf documents (room_of question.now.asked.now.pages)
        (snapshots_documents question.now.snapshots.now)
        → (text : List ℕ) × Appends (W.contents sink.old) (W.contents sink.new) text
        × IsWritten (Some count) question.now.asked.now question.now.query.now documents None
        text) }
    ensures cause { IfErr result (λ why. (documents : List Fields)
        → AreOneOf documents (room_of question.now.asked.now.pages)
        (snapshots_documents question.now.snapshots.now)
        → HasNoText question.now.asked.now question.now.query.now documents
        (Rose (W.faults sink.old) (W.faults sink.new)) why) }
{
    let mut writer = PageWriter::new(alloc, question.asked)?;
    let first = first_after(alloc, question.asked)?;
    let most = most_of(alloc, question, count, first)?;
    writer.write_groups(most.groups.as_slice(), most.total.as_ref(), true)?;
    write_all(sink, writer.text.as_bytes())?;
    Ok(())
}

/// The groups with the most documents, and the total of all records, where it is asked for.
#[derive(Drop)]
struct Most {
    groups: TopGroups,
    total: Option<FilterBucketResult>,
}

// So many groups with the most documents of all pages after a key, and the total.
fn most_of(
    alloc: Global,
    question: &Question<'_, '_>,
    count: u32,
    first: NameMap<AfterKey>,
) -> Result<Most, Failure>
    requires { length question.now.snapshots.now ≡ 1 }
    ensures most { IfOk result (λ most. (documents : List Fields)
        → AreOneOf documents (room_of question.now.asked.now.pages)
        (snapshots_documents question.now.snapshots.now)
        → HasMost question.now.asked.now.grouping question.now.query.now documents
        (room_of question.now.asked.now.pages) count first most.groups.groups.items most.total) }
    ensures cause { IfErr result (λ why. (documents : List Fields)
        → AreOneOf documents (room_of question.now.asked.now.pages)
        (snapshots_documents question.now.snapshots.now)
        → HasNoText question.now.asked.now question.now.query.now documents
        ⊥ why) }
{
    let room = question.asked.pages.room();
    let mut groups = TopGroups::new(alloc, count);
    let mut after = first;
    for _number in 0..u64::MAX {
        let page = AskedPage { size: room, after };
        let mut page = page_of(alloc, question, page)?;
        after = next_after(alloc, &page)?;
        let added = take_groups(alloc, &mut page)?;
        groups.add_all(added)?;
        if is_last(&after, true) {
            let total = take_total(alloc, &mut page)?;
            return Ok(Most { groups, total });
        }
    }
    // No memory holds the groups of so many pages.
    Err(Failure::OutOfMemory)
}

// Takes its groups out of a page.
fn take_groups(
    alloc: Global,
    page: &mut AggregationResults,
) -> Result<Vec<CompositeBucketEntry>, OutOfMemory>
    ensures groups { IfOk result (λ groups. groups.items ≡ groups_in page.old) }
    ensures total { OnOk result (total_in page.new ≡ total_in page.old) }
{
    let name = Text::copy_of(alloc, GROUPS)?;
    match page.0.remove(&name) {
        Some(AggregationResult::BucketResult(BucketResult::Composite { buckets, .. })) => {
            Ok(buckets.into_vec())
        }
        _ => Ok(Vec::new(alloc)),
    }
}

// Takes its total out of a page, where it has one.
fn take_total(
    alloc: Global,
    page: &mut AggregationResults,
) -> Result<Option<FilterBucketResult>, OutOfMemory>
    ensures { IfOk result (λ total. total ≡ total_in page.old) }
{
    let name = Text::copy_of(alloc, TOTAL)?;
    match page.0.remove(&name) {
        Some(AggregationResult::BucketResult(BucketResult::Filter(total))) => Ok(Some(total)),
        _ => Ok(None),
    }
}
