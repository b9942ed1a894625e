//! Pages, one after another.
ghost use Rattle.std.specs.Prelude.{◌≡◌, ◌≤◌, ℕ, List, IfErr, IfOk, None, OnOk, length};
ghost use Rattle.std.specs.Io.KnownBytes.{Appends};
ghost use Rattle.agg_segment.specs.storage.Document.{Fields};
ghost use Rattle.agg_segment.specs.Snapshot.{snapshots_documents};
ghost use Rattle.agg_streams.specs.Causes.{Rose};
ghost use Rattle.peslumok_records.specs.record_index.Index.{AreOneOf};
ghost use Rattle.peslumok_front.specs.front.Answer.{AreWritten, IsWritten, TellsKey};
ghost use Rattle.peslumok_front.specs.front.Causes.{HasNoText, IsUnwritten};
ghost use Rattle.peslumok_front.specs.front.Pages.{is_last, room_of};
ghost use Rattle.peslumok_front.specs.front.Written.{IsPageText};

use crate::after_text::write_after;
use crate::front::check::first_after;
use crate::front::failure::Failure;
use crate::front::page::{Question, page_of};
use crate::front::written::{PageWriter, next_after};
use crate::grouping::{AskedPage, Grouping};
use agg_results::final_results::AggregationResults;
use agg_streams::sink::{Sink, write_all};
use agg_values::{AfterKey, NameMap, OutOfMemory, Text};
use std::alloc::Global;

/// Writes the pages that are asked for. Answers the text of the key after which the next one
/// begins, where there is one.
pub fn write_pages<W: Sink>(
    alloc: Global,
    question: &Question<'_, '_>,
    sink: &mut W,
) -> Result<Option<Text>, Failure>
    requires { length question.now.snapshots.now ≡ 1 }
    ensures written { IfOk result (λ told. (documents : List Fields)
        → AreOneOf documents (room_of question.now.asked.now.pages)
        (snapshots_documents question.now.snapshots.now)
        → (text : List ℕ) × Appends (W.contents sink.old) (W.contents sink.new) text
        × IsWritten None question.now.asked.now question.now.query.now documents told text) }
    ensures cause { IfErr result (λ why. (documents : List Fields)
        → AreOneOf documents (room_of question.now.asked.now.pages)
        (snapshots_documents question.now.snapshots.now)
        → HasNoText question.now.asked.now question.now.query.now documents
        (Rose (W.faults sink.old) (W.faults sink.new)) why) }
{
    let writer = PageWriter::new(alloc, question.asked)?;
    let first = first_after(alloc, question.asked)?;
    let next = write_from(writer, question, first, sink)?;
    Ok(next_text(alloc, &next, &question.asked.grouping)?)
}

// Writes the pages after a key. Answers the key that the last one shows.
fn write_from<W: Sink>(
    writer: PageWriter,
    question: &Question<'_, '_>,
    first: NameMap<AfterKey>,
    sink: &mut W,
) -> Result<NameMap<AfterKey>, Failure>
    requires { length question.now.snapshots.now ≡ 1 }
    ensures written { IfOk result (λ next. (documents : List Fields)
        → AreOneOf documents (room_of question.now.asked.now.pages)
        (snapshots_documents question.now.snapshots.now)
        → (text : List ℕ) × Appends (W.contents sink.old) (W.contents sink.new) text
        × AreWritten question.now.asked.now.grouping question.now.query.now documents
        question.now.asked.now.pages writer.output writer.columns first next text) }
    ensures cause { IfErr result (λ why. (documents : List Fields)
        → AreOneOf documents (room_of question.now.asked.now.pages)
        (snapshots_documents question.now.snapshots.now)
        → HasNoText question.now.asked.now question.now.query.now documents
        (Rose (W.faults sink.old) (W.faults sink.new)) why) }
{
    let pages = question.asked.pages;
    let room = pages.room();
    let mut writer = writer;
    let mut after = first;
    for number in 0..u64::MAX {
        let page = AskedPage { size: room, after };
        let page = page_of(writer.alloc, question, page)?;
        after = next_after(writer.alloc, &page)?;
        let is_last = is_last(&after, pages.is_all);
        send_page(&mut writer, &page, number == 0, is_last, sink)?;
        if is_last {
            return Ok(after);
        }
    }
    // No memory holds the groups of so many pages.
    Err(Failure::OutOfMemory)
}

/// Whether no page is written after one that shows a key.
pub fn is_last(shown: &NameMap<AfterKey>, is_all: bool) -> bool
    ensures { result ≡ is_last is_all shown.now }
{
    shown.is_empty() || !is_all
}

// Writes a page.
fn send_page<W: Sink>(
    writer: &mut PageWriter,
    page: &AggregationResults,
    is_first: bool,
    is_last: bool,
    sink: &mut W,
) -> Result<(), Failure>
    ensures text { OnOk result ((text : List ℕ)
        × Appends (W.contents sink.old) (W.contents sink.new) text
        × IsPageText writer.old.columns writer.old.output is_first is_last page.now text) }
    ensures columns { writer.new.columns ≡ writer.old.columns }
    ensures output { writer.new.output ≡ writer.old.output }
    ensures cause { IfErr result (IsUnwritten (Rose (W.faults sink.old) (W.faults sink.new))) }
    ensures later { W.faults sink.old ≤ W.faults sink.new }
{
    writer.write_page(page, is_first, is_last)?;
    write_all(sink, writer.text.as_bytes())?;
    Ok(())
}

// The text of the key after which the next page begins, where there is one.
fn next_text(
    alloc: Global,
    after: &NameMap<AfterKey>,
    grouping: &Grouping<'_>,
) -> Result<Option<Text>, OutOfMemory>
    ensures { IfOk result (λ told. TellsKey grouping.now told after.now) }
{
    if after.is_empty() {
        return Ok(None);
    }
    let mut text = String::new(alloc);
    write_after(alloc, &mut text, after, grouping)?;
    Ok(Some(Text::from_string(text)?))
}
