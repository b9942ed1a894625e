//! The collector that groups the documents of a segment: the accessors of its sources, its buckets
//! by parent, and its pages.
#![tactic(auto)]

pub mod accessor;
pub mod buckets;
mod collector;
mod laws;
mod page_entries;
mod page_entry;
mod stored_tuple;
mod tuple_buckets;
pub mod tuple_counts;
mod walk;

pub use crate::accessor::{
    CompositeAccessor, CompositeAggReqData, CompositeSourceAccessors, PrecomputedAfterKey,
    encoded_tuples_compare_as_typed,
};
pub use collector::SegmentCompositeCollector;
pub use laws::{
    caches_give_equal_sub_results, pages_have_the_lowest_groups, visits_have_the_occurrences,
};
pub use page_entries::PageEntries;
pub use page_entry::PageEntry;
pub use walk::list_entries;
