//! The aggregations of a request in a segment: what they are asked, the tree of their collectors,
//! what it counts and holds, and its results.
#![tactic(auto)]

pub mod collector_tree;
pub mod held_bytes;
pub mod segment_context;
pub mod tree_results;
pub mod uncut;
