//! What is charged for a bucket and for a node.
ghost use Rattle.std.specs.Prelude.{◌≡◌, ◌≤◌, length};
ghost use Rattle.agg_request_tree.specs.Faults.{max_sources};
ghost use Rattle.agg_request_tree.specs.charges.Charges as spec;

use crate::CompositeAggregation;

/// The bytes that a node, which is an aggregation at any depth, is charged.
pub const NODE_BYTES: u64 = 256;

/// The bytes that a bucket of a composite is charged.
pub fn bucket_bytes(composite: &CompositeAggregation) -> u64
    requires { length composite.now.sources ≤ max_sources }
    ensures { result ≡ spec.bucket_bytes composite.now }
{
    64 + 32 * composite.sources.as_slice().len() as u64
}
