//! Tests of intermediate results, which merge, and of final ones and their text.
#![tactic(auto)]

#[cfg(test)]
mod entries;
#[cfg(test)]
mod final_refusals;
#[cfg(test)]
mod final_results;
#[cfg(test)]
mod held;
#[cfg(test)]
mod merging;
#[cfg(test)]
mod metrics;
#[cfg(test)]
mod nested;
#[cfg(test)]
mod refusals;
#[cfg(test)]
mod shown;
#[cfg(test)]
mod term_buckets;
#[cfg(test)]
mod text;
