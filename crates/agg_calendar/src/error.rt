use thiserror::Error;

/// A bucket that has no start.
#[derive(Clone, Copy, Debug, PartialEq, Eq, Error)]
pub enum StartError {
    /// The start is beyond the numbers of 64 bits.
    #[error("the start of a bucket is out of range")]
    BucketOutOfRange,
}
