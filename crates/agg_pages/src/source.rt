//! Where bytes come from.
mod reading;

pub use crate::input_text::MAX_INPUT_BYTES;
pub use agg_streams::source::{MemorySource, Source, StdSource, SteadySource};
pub use reading::{ReadAllError, read_all};
