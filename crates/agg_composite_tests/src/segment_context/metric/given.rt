//! A segment of documents with values of all classes, and metrics of its fields.
use agg_low_tests::segment::given::{Given, segment_of};
use agg_metric::{MetricAggReqData, SegmentMetricCollector, StatsType};
use agg_results::metric_results::IntermediateMetricResult;
use agg_segment::SegmentReader;
use agg_values::Text;
use std::alloc::Global;
use std::test::Fail;

// The document 2 has no value, and the document 1 has a number twice.
const DOCUMENTS: &[&[(&str, Given)]] = &[
    &[
        ("mixed", Given::Signed(-5)),
        ("mixed", Given::Text("a")),
        ("mixed", Given::Truth(true)),
        ("wide", Given::Unsigned(u64::MAX)),
        ("ends", Given::Signed(i64::MIN)),
    ],
    &[
        ("mixed", Given::Date(7)),
        ("mixed", Given::Signed(3)),
        ("mixed", Given::Signed(3)),
        ("wide", Given::Signed(1)),
        ("ends", Given::Signed(i64::MAX)),
        ("days", Given::Date(i64::MAX)),
    ],
    &[],
    &[
        ("mixed", Given::Text("b")),
        ("mixed", Given::Address(9)),
        ("days", Given::Date(i64::MIN)),
    ],
];

/// The segment of these documents.
pub(crate) fn segment(alloc: Global) -> Result<SegmentReader, Fail> {
    Ok(segment_of(alloc, DOCUMENTS)?)
}

/// A collector of a metric of a field in a segment.
pub(crate) fn collector_of<'s>(
    alloc: Global,
    field: &str,
    collecting_for: StatsType,
    segment: &'s SegmentReader,
) -> Result<SegmentMetricCollector<'s>, Fail> {
    let req = MetricAggReqData {
        name: Text::copy_of(alloc, "metric")?,
        field: Text::copy_of(alloc, field)?,
        collecting_for,
    };
    Ok(SegmentMetricCollector::new(alloc, &req, segment))
}

/// The kind of a metric, and its number if it has one.
pub(crate) fn shown(metric: IntermediateMetricResult) -> (StatsType, Option<i128>) {
    match metric {
        IntermediateMetricResult::Count(metric) => {
            (StatsType::Count, Some(i128::from(metric.count)))
        }
        IntermediateMetricResult::Max(metric) => (StatsType::Max, metric.value),
        IntermediateMetricResult::Min(metric) => (StatsType::Min, metric.value),
        IntermediateMetricResult::Sum(metric) => (StatsType::Sum, Some(metric.sum)),
    }
}
