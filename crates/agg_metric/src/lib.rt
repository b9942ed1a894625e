//! The collector that computes a metric of a field in a segment.
#![tactic(auto)]

mod collector;
mod metric;
mod request_data;

pub use collector::SegmentMetricCollector;
pub use request_data::{MetricAggReqData, StatsType};
