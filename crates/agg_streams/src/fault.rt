//! What a read or a write that failed answers, and the count of those.
mod calls;

pub use calls::CallCounter;

/// A read or a write failed.
#[derive(Clone, Copy, Debug, PartialEq, Eq)]
pub struct Failed;
