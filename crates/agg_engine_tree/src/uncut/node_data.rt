//! How often a node of a request lists a document.
ghost use Rattle.std.specs.Prelude.{◌≡◌, ◌<◌, ℕ, List, length, filter_map};
ghost use Rattle.std.specs.Io.Iter.{u64_saturate};
ghost use Rattle.agg_segment.specs.storage.Columns.{all_keys, column_keys, type_of};
ghost use Rattle.agg_segment.specs.Segment.{Stored, document_at, documents_of};
ghost use Rattle.agg_segment.specs.declared.query.QueryTree.{QueryTree};
ghost use Rattle.agg_request_tree.specs.Metrics.{number_of};
ghost use Rattle.agg_engine_tree.specs.segment_context.Context.{IsAskedAt, IsMeant, Meaning};
ghost use Rattle.agg_engine_tree.specs.uncut.NodeData.{has_numbers, num_read};
ghost use Rattle.agg_engine_tree.specs.uncut.Uncut.{Asked, times};

use crate::segment_context::{AggKind, PerRequestAggSegCtx};
use agg_composite::accessor::CompositeAggReqData;
use agg_filter::DocumentQueryEvaluator;
use agg_metric::StatsType;
use agg_segment::{Column, ColumnType, SegmentReader};
use agg_values::DocId;

/// What tells how often a node of a request lists documents of a segment.
#[derive(Clone, Copy)]
pub enum NodeData<'a, 's> {
    /// Once for each occurrence.
    Composite(&'a CompositeAggReqData<'s>),
    /// Once where a query matches.
    Filter(&'a DocumentQueryEvaluator),
    /// Once for each value in columns that is read to compute this.
    Metric(StatsType, &'a [Column]),
}

impl<'a, 's> NodeData<'a, 's> {
    ghost use Rattle.agg_engine_tree.specs.uncut.NodeData.{IsDataOf};

    /// The data of a node of a kind, at its index in the data of that kind.
    pub fn new(
        ctx: &'a PerRequestAggSegCtx<'s>,
        segment: &'a SegmentReader,
        kind: AggKind,
        index: usize,
    ) -> NodeData<'a, 's>
        requires { (meaning : Meaning) × (name : List ℕ) × (asks : Asked)
            × (meaning.segment ≡ segment.now) × IsMeant meaning ctx.now
            × IsAskedAt meaning ctx.now name asks kind index }
        ensures { (meaning : Meaning) (name : List ℕ) (asks : Asked)
            → meaning.segment ≡ segment.now → IsMeant meaning ctx.now
            → IsAskedAt meaning ctx.now name asks kind index → IsDataOf segment.now asks result }
    {
        match kind {
            AggKind::Composite => NodeData::Composite(&ctx.composite_req_data.as_slice()[index]),
            AggKind::Filter => NodeData::Filter(&ctx.filter_req_data.as_slice()[index].evaluator),
            AggKind::StatsKind(computed) => {
                let field = &ctx.stats_metric_req_data.as_slice()[index].field;
                NodeData::Metric(computed, segment.columns(field))
            }
        }
    }

    /// How often the node lists a document, at most the greatest u64.
    pub fn times(&self, doc: DocId) -> u64
        requires { (segment : Stored) × (asks : Asked) × IsDataOf segment asks self.now }
        ensures { (segment : Stored) (asks : Asked) → IsDataOf segment asks self.now
            → doc < length (documents_of segment)
            → result ≡ u64_saturate (times asks (document_at segment doc)) }
    {
        match self {
            NodeData::Composite(req) => req.count_occurrences(&[doc]),
            NodeData::Filter(evaluator) => u64::from(evaluator.matches_document(doc)),
            NodeData::Metric(computed, columns) => num_read(*computed, columns, doc),
        }
    }
}

// How many values of a document in columns are read to compute this, at most the greatest u64.
fn num_read(computed: StatsType, columns: &[Column], doc: DocId) -> u64
    ensures { result ≡ u64_saturate (num_read computed (all_keys columns.now doc)) }
{
    match computed {
        StatsType::Count => num_values(columns, doc),
        StatsType::Max | StatsType::Min | StatsType::Sum => num_numbers(columns, doc),
    }
}

// How many values a document has in columns, at most the greatest u64.
fn num_values(columns: &[Column], doc: DocId) -> u64
    ensures { result ≡ u64_saturate (length (all_keys columns.now doc)) }
{
    let mut count: u64 = 0;
    for column in columns {
        count = count.saturating_add(column.values_for_doc(doc).len() as u64);
    }
    count
}

// How many numbers and dates a document has in columns, at most the greatest u64.
fn num_numbers(columns: &[Column], doc: DocId) -> u64
    ensures { result ≡ u64_saturate (length (filter_map number_of (all_keys columns.now doc))) }
{
    let mut count: u64 = 0;
    for column in columns {
        count = count.saturating_add(num_numbers_in(column, doc));
    }
    count
}

// How many it has in a column.
fn num_numbers_in(column: &Column, doc: DocId) -> u64
    ensures { result ≡ length (filter_map number_of (column_keys column.now doc)) }
{
    if !has_numbers(column.column_type()) {
        return 0;
    }
    column.values_for_doc(doc).len() as u64
}

// Whether the keys of columns of a type are numbers or dates.
fn has_numbers(column_type: ColumnType) -> bool
    ensures { result ≡ has_numbers column_type }
{
    match column_type {
        ColumnType::I64 | ColumnType::U64 | ColumnType::DateTime => true,
        ColumnType::Bool | ColumnType::Str | ColumnType::IpAddr => false,
    }
}
