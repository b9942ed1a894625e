//! What there is to tell beside the groups.
use agg_values::Text;

/// What a user may want to know beside the groups.
#[derive(Drop)]
pub struct Report {
    /// The fields that are asked for, and have a value in no record.
    pub unseen: Vec<Text>,
    /// The names of the first fields that records have.
    pub names: Vec<Text>,
    /// The key after which the next page begins, as the command line takes it, where there is one.
    pub next: Option<Text>,
}
