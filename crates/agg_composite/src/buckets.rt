//! The buckets of a composite, by parent and tuple: at most a page of them for each parent.
pub(crate) mod bucket;
pub(crate) mod buckets_by_parent;
pub(crate) mod laws;
pub(crate) mod page;
pub(crate) mod visit_error;

pub use bucket::Bucket;
pub use buckets_by_parent::BucketsByParent;
pub use laws::{buckets_have_the_cut, cuts_compose, nodes_stay_right, visits_compose};
pub use visit_error::VisitError;
