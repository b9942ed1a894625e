//! A whole grouping: records in, pages out.
ghost use Rattle.std.specs.Prelude.{◌≡◌, ℕ, IfErr, IfOk, List, length};
ghost use Rattle.std.specs.Io.KnownBytes.{Appends};
ghost use Rattle.agg_segment.specs.storage.Document.{Fields};
ghost use Rattle.agg_segment.specs.Snapshot.{snapshots_documents};
ghost use Rattle.agg_streams.specs.Causes.{Rose};
ghost use Rattle.peslumok_records.specs.record_index.Index.{AreOneOf};
ghost use Rattle.peslumok_front.specs.front.Answer.{AreRead, IsAnswered, IsWritten};
ghost use Rattle.peslumok_front.specs.front.Asking.{AskAll, AskFor};
ghost use Rattle.peslumok_front.specs.front.Causes.{HasFailed, HasNoText, HaveNoRecords};
ghost use Rattle.peslumok_front.specs.front.Pages.{room_of};

use crate::front::asked::{Asked, RecordFile};
use crate::front::failure::Failure;
use crate::front::files::records_of;
use crate::front::page::Question;
use crate::front::pages::write_pages;
use crate::front::top::write_top;
use crate::grouping::{Grouping, asked_fields, query_of};
use agg_segment::QueryTree;
use agg_streams::sink::Sink;
use agg_values::{NameMap, OutOfMemory, Text};
use peslumok_records::record_index::{Index, Report};
use peslumok_records::records::AskedFields;
use peslumok_texts::fields::FieldType;
use std::alloc::Global;

/// Groups the records of files, and writes the pages that are asked for, each as soon as it is
/// made.
pub fn group<W: Sink>(
    alloc: Global,
    asked: &Asked<'_>,
    files: Vec<RecordFile<'_>>,
    sink: &mut W,
) -> Result<Report, Failure>
    ensures answered { IfOk result (λ report. IsAnswered asked.now files.entry.items report
        (W.contents sink.old) (W.contents sink.new)) }
    ensures cause { IfErr result (HasFailed asked.now files.entry.items
        (Rose (W.faults sink.old) (W.faults sink.new))) }
{
    let query = query_of(alloc, &asked.grouping)?;
    let index = index_of(alloc, asked, &query, files)?;
    let question = Question {
        asked,
        query: &query,
        snapshots: index.snapshots(),
    };
    let next = write_answer(alloc, &question, sink)?;
    Ok(index.into_report(next))
}

// Writes what is asked for of the groups. Answers the text of the key after which the next page
// begins, where there is one.
fn write_answer<W: Sink>(
    alloc: Global,
    question: &Question<'_, '_>,
    sink: &mut W,
) -> Result<Option<Text>, Failure>
    requires { length question.now.snapshots.now ≡ 1 }
    ensures written { IfOk result (λ told. (documents : List Fields)
        → AreOneOf documents (room_of question.now.asked.now.pages)
        (snapshots_documents question.now.snapshots.now)
        → (text : List ℕ) × Appends (W.contents sink.old) (W.contents sink.new) text
        × IsWritten question.now.asked.now.pages.top question.now.asked.now question.now.query.now
        documents told text) }
    ensures cause { IfErr result (λ why. (documents : List Fields)
        → AreOneOf documents (room_of question.now.asked.now.pages)
        (snapshots_documents question.now.snapshots.now)
        → HasNoText question.now.asked.now question.now.query.now documents
        (Rose (W.faults sink.old) (W.faults sink.new)) why) }
{
    let Some(count) = question.asked.pages.top else {
        return write_pages(alloc, question, sink);
    };
    write_top(alloc, question, count, sink)?;
    Ok(None)
}

// The records of files, in segments.
fn index_of(
    alloc: Global,
    asked: &Asked<'_>,
    query: &QueryTree,
    files: Vec<RecordFile<'_>>,
) -> Result<Index, Failure>
    ensures index { IfOk result (λ index. (documents : List Fields)
        × AreRead asked.now.grouping query.now files.entry.items documents index.unseen.items
        × AreOneOf documents (room_of asked.now.pages) (snapshots_documents index.snapshots)) }
    ensures cause { IfErr result (HaveNoRecords files.entry.items) }
{
    let fields = fields_of(alloc, &asked.grouping, query)?;
    let records = records_of(alloc, files, &fields)?;
    let room = asked.pages.room();
    Ok(Index::of(alloc, records, &fields, room)?)
}

// The fields that are read of records.
fn fields_of(
    alloc: Global,
    grouping: &Grouping<'_>,
    query: &QueryTree,
) -> Result<AskedFields, OutOfMemory>
    ensures { IfOk result (AskAll grouping.now query.now) }
{
    let fields = asked_fields(alloc, grouping, query)?;
    ask_all(alloc, &fields)
}

// Asks for fields, each with its type.
fn ask_all(alloc: Global, fields: &NameMap<FieldType>) -> Result<AskedFields, OutOfMemory>
    ensures { IfOk result (AskFor fields.now) }
{
    let mut asked = AskedFields::new(alloc);
    for (name, of) in fields.iter() {
        let name = name.try_clone(alloc)?;
        asked.ask(alloc, name, *of)?;
    }
    Ok(asked)
}
