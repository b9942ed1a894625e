//! The intermediate results of a tree of collectors.
pub(crate) mod collected;
pub(crate) mod ending;
pub(crate) mod laws;
pub(crate) mod leaf;
pub(crate) mod made;
pub(crate) mod results;

pub use ending::into_results;
pub use laws::a_tree_has_the_names_of_its_request;
pub use leaf::add_leaf;
pub use results::add_results;
