//! Lists that give their memory back while they are gone over.
pub(crate) mod freeing_iter;

pub use freeing_iter::FreeingIter;
