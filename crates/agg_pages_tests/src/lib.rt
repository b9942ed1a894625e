//! Tests of runs whose sources and sinks fail, or give and take a few bytes at a time, and of
//! inputs that are read and generated.
#![tactic(auto)]

#[cfg(test)]
mod drip;
#[cfg(test)]
mod given;
#[cfg(test)]
mod input_text;
#[cfg(test)]
mod make;
#[cfg(test)]
mod program;
#[cfg(test)]
mod source;
