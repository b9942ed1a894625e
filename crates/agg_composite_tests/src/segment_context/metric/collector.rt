use crate::segment_context::metric::given::{collector_of, segment, shown};
use agg_cache::BucketId;
use agg_expect::expect_equal;
use agg_metric::{SegmentMetricCollector, StatsType};
use agg_values::DocId;
use std::test::Fail;

// Fields, metrics, documents, and the metric of the field in these.
const METRICS: &[(&str, StatsType, &[DocId], Option<i128>)] = &[
    ("mixed", StatsType::Count, &[0, 1, 2, 3], Some(8)),
    ("mixed", StatsType::Max, &[0, 1, 2, 3], Some(7)),
    ("mixed", StatsType::Min, &[0, 1, 2, 3], Some(-5)),
    ("mixed", StatsType::Sum, &[0, 1, 2, 3], Some(8)),
    ("mixed", StatsType::Sum, &[1, 1], Some(26)),
    ("mixed", StatsType::Max, &[3], None),
    ("mixed", StatsType::Min, &[2], None),
    ("mixed", StatsType::Sum, &[3, 4], Some(0)),
    ("wide", StatsType::Count, &[0, 1], Some(2)),
    (
        "wide",
        StatsType::Max,
        &[1, 0],
        Some(18_446_744_073_709_551_615),
    ),
    ("wide", StatsType::Min, &[1, 0], Some(1)),
    (
        "wide",
        StatsType::Sum,
        &[0, 1],
        Some(18_446_744_073_709_551_616),
    ),
    (
        "ends",
        StatsType::Max,
        &[0, 1],
        Some(9_223_372_036_854_775_807),
    ),
    (
        "ends",
        StatsType::Min,
        &[0, 1],
        Some(-9_223_372_036_854_775_808),
    ),
    (
        "ends",
        StatsType::Sum,
        &[0, 0, 1],
        Some(-9_223_372_036_854_775_809),
    ),
    (
        "days",
        StatsType::Max,
        &[1, 3],
        Some(9_223_372_036_854_775_807),
    ),
    (
        "days",
        StatsType::Min,
        &[1, 3],
        Some(-9_223_372_036_854_775_808),
    ),
    ("absent", StatsType::Count, &[0, 1, 2, 3], Some(0)),
];

#[test]
fn computes_metrics(rt: HostRuntime) -> Result<(), Fail> {
    let segment = segment(rt.alloc())?;
    for &(field, kind, docs, number) in METRICS {
        let mut collector = collector_of(rt.alloc(), field, kind, &segment)?;
        collector.prepare_max_bucket(0)?;
        collector.collect(0, docs)?;
        expect_equal(shown(collector.result(0)), (kind, number))?;
    }
    Ok(())
}

// Metrics of the field of mixed values by parent.
const BY_PARENT: &[(StatsType, &[(BucketId, Option<i128>)])] = &[
    (
        StatsType::Count,
        &[(0, Some(3)), (1, Some(0)), (2, Some(9)), (3, Some(0))],
    ),
    (
        StatsType::Max,
        &[(0, Some(-5)), (1, None), (2, Some(7)), (3, None)],
    ),
    (
        StatsType::Min,
        &[(0, Some(-5)), (1, None), (2, Some(-5)), (3, None)],
    ),
    (
        StatsType::Sum,
        &[(0, Some(-5)), (1, Some(0)), (2, Some(21)), (3, Some(0))],
    ),
];

// Collects documents under the parent 2, then under 0, and under 2 again. The parent 3 isn't
// prepared.
fn collect_all(collector: &mut SegmentMetricCollector<'_>) -> Result<(), Fail> {
    collector.prepare_max_bucket(0)?;
    collector.prepare_max_bucket(2)?;
    collector.collect(2, &[1, 0])?;
    collector.collect(0, &[2, 0])?;
    collector.collect(2, &[1])?;
    Ok(())
}

#[test]
fn computes_by_parent(rt: HostRuntime) -> Result<(), Fail> {
    let segment = segment(rt.alloc())?;
    for &(kind, numbers) in BY_PARENT {
        let mut collector = collector_of(rt.alloc(), "mixed", kind, &segment)?;
        collect_all(&mut collector)?;
        for &(parent, number) in numbers {
            expect_equal(shown(collector.result(parent)), (kind, number))?;
        }
    }
    Ok(())
}
