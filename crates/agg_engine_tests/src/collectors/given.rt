//! A request over two segments, and what the collector of a request takes and gives in one.
ghost use Rattle.std.specs.Prelude.{◌≡◌, ◌≤◌, IfOk};
ghost use Rattle.agg_engine_tree.specs.segment_context.Trees.{AreOfRequest};
ghost use Rattle.agg_engine.specs.collectors.Segment.{MayBeUsed};

use agg_cache::{CollectError, LimitsLedger};
use agg_engine::collectors::AggregationSegmentCollector;
use agg_engine_tree::segment_context::AggContextParams;
use agg_low_tests::segment::given::Given;
use agg_request::{Aggregations, read_aggregations};
use agg_results::{AggregationResults, IntermediateAggregationResults};
use agg_segment::{Schema, SegmentReader};
use agg_values::{NameMap, Steps, Text};
use serde_json::Value;
use std::alloc::Global;
use std::process::Abort;
use std::sync::ledger::Ledger;
use std::test::Fail;

/// The values of a document.
pub(crate) type Values = &'static [(&'static str, Given)];

/// The documents of a segment.
pub(crate) const FIRST: &[Values] = &[
    &[("colour", Given::Text("red")), ("size", Given::Signed(1))],
    &[("colour", Given::Text("blue")), ("size", Given::Signed(3))],
];

/// The documents of another segment.
pub(crate) const SECOND: &[Values] = &[
    &[("colour", Given::Text("blue")), ("size", Given::Signed(5))],
    &[("colour", Given::Text("red")), ("size", Given::Signed(7))],
];

/// Colours, with the sum of the sizes of each, and beside them the greatest size.
pub(crate) const REQUEST: &str = r#"{"g":{"composite":{"sources":[{"colour":{"terms":
    {"field":"colour"}}}],"size":2},"aggs":{"s":{"sum":{"field":"size"}}}},
    "m":{"max":{"field":"size"}}}"#;

/// The results of that request over both segments.
pub(crate) const RESULTS: &str = concat!(
    r#"{"g":{"after_key":{"colour":"str:red"},"buckets":["#,
    r#"{"doc_count":2,"key":{"colour":"blue"},"s":{"value":8}},"#,
    r#"{"doc_count":2,"key":{"colour":"red"},"s":{"value":8}}]},"m":{"value":7}}"#,
);

/// The request of a text.
pub(crate) fn request_of(alloc: Global, text: &str) -> Result<Aggregations, Fail> {
    Ok(read_aggregations(alloc, &Value::from_str(alloc, text)?, Vec::new(alloc))?)
}

/// The context of a request, with a page of the composite of a name and of this size, if one is
/// given.
pub(crate) fn context_of(
    alloc: Global,
    request: &Aggregations,
    page: Option<(&str, u32)>,
) -> Result<AggContextParams, Fail>
    ensures { IfOk result (λ context. AreOfRequest request.now context.trees) }
{
    let mut context = AggContextParams::new(alloc, request, &Schema::new(alloc))?;
    let Some((name, size)) = page else {
        return Ok(context);
    };
    context.set_page(Text::copy_of(alloc, name)?, size, NameMap::new(alloc));
    Ok(context)
}

/// The results of two documents of a segment, one taken by itself and one in a block.
pub(crate) fn fruit<L: Ledger>(
    rt: &impl Abort,
    collector: AggregationSegmentCollector<'_>,
    reader: &SegmentReader,
    limits: &mut LimitsLedger,
    steps: &mut Steps<L>,
) -> Result<IntermediateAggregationResults, CollectError>
    requires usable { MayBeUsed collector }
    requires reader { collector.reader.now ≡ reader.now }
    requires charged { collector.tree.guard ≤ limits.old.in_use }
{
    let mut collector = collector;
    match take_two(rt, &mut collector, reader, limits, steps) {
        Ok(()) => collector.harvest(limits, steps),
        Err(error) => {
            drop(collector);
            Err(error)
        }
    }
}

// A collector takes two documents of its segment, one by itself and one in a block.
fn take_two<L: Ledger>(
    rt: &impl Abort,
    collector: &mut AggregationSegmentCollector<'_>,
    reader: &SegmentReader,
    limits: &mut LimitsLedger,
    steps: &mut Steps<L>,
) -> Result<(), CollectError>
    requires usable { MayBeUsed collector.old }
    requires reader { collector.old.reader.now ≡ reader.now }
    requires charged { collector.old.tree.guard ≤ limits.old.in_use }
    ensures usable { MayBeUsed collector.new }
    ensures charged { collector.new.tree.guard ≤ limits.new.in_use }
{
    assert!(rt; 2 <= reader.num_docs());
    collector.collect(1, limits, steps)?;
    collector.collect_block(&[0], limits, steps)
}

/// Intermediate results, as they are shown in the end.
pub(crate) fn shown(
    request: &Aggregations,
    held: IntermediateAggregationResults,
) -> Result<Text, Fail> {
    let results = held.into_final_result(request, &LimitsLedger::new(None, None))?;
    text_of(&results)
}

/// Final results, as they are shown.
pub(crate) fn text_of(results: &AggregationResults) -> Result<Text, Fail> {
    Ok(results.write_json()?)
}
