//! Tests of the words of a command line, of dates and decimals, and of the values of fields.
#![tactic(auto)]

#[cfg(test)]
mod dates;
#[cfg(test)]
mod decimals;
#[cfg(test)]
mod values;
#[cfg(test)]
mod words;
