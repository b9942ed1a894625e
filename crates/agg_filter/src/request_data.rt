//! What a collector is asked in a segment.
ghost use Rattle.std.specs.Prelude.{◌≡◌, ◌+◌, length};
ghost use Rattle.std.specs.Int.{div_ceil};

use crate::DocumentQueryEvaluator;
use agg_values::Text;

/// A filter in a segment: its name, the documents that its query matches, and whether it stands
/// under no other aggregation.
#[derive(Drop)]
pub struct FilterAggReqData {
    pub name: Text,
    pub evaluator: DocumentQueryEvaluator,
    pub is_top_level: bool,
}

impl FilterAggReqData {
    /// How many bytes of a memory limit it takes: 256, and one for each eight documents of the
    /// segment.
    pub fn get_memory_consumption(&self) -> u64
        ensures { result ≡ 256 + div_ceil (length self.now.evaluator) 8 }
    {
        256 + u64::from(self.evaluator.num_docs()).div_ceil(8)
    }
}
