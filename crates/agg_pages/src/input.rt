//! The input that bytes stand for.

pub use crate::input_text::{Header, Input, InputError, read_input};
