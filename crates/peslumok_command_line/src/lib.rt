//! The command line of `peslumok`: its commands, their help, and what the words ask.
#![tactic(auto)]

mod arguments;
mod command;
mod error;
mod named_option;
mod option_value;
mod options;
mod read;
mod readings;
mod rules;
mod values;

pub use error::CommandLineError;
pub use options::{Chosen, GroupOptions};
pub use read::read_command_line;
