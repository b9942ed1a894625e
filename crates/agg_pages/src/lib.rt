//! The outside of walks: the input that bytes stand for, the text of an answer, the run that joins
//! them over any source and sink, and inputs that are generated.
#![tactic(auto)]

mod any_field;
mod command;
pub mod document_json;
pub mod generated_walks;
pub mod generator;
pub mod header_text;
pub mod input;
pub mod input_text;
mod laws;
pub mod output;
mod program;
mod reply;
pub mod source;
mod status;

pub use agg_streams::{Failed, sink};
pub use any_field::AnyField;
pub use laws::{
    a_printed_walk_is_the_plain_walk, a_seed_has_one_summary, an_input_has_one_summary,
    generated_inputs_are_never_refused,
};
pub use program::{run, run_uncounted};
pub use status::Status;
