//! What holds of the walks of generated inputs.
pub(crate) mod laws;

pub use laws::generated_walks_are_never_refused;
