//! The collector that keeps the documents of a segment that a query matches.
#![tactic(auto)]

mod collector;
mod evaluator;
mod laws;
mod request_data;

pub use collector::SegmentFilterCollector;
pub use evaluator::DocumentQueryEvaluator;
pub use laws::caches_give_equal_sub_results;
pub use request_data::FilterAggReqData;
