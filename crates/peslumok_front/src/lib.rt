//! All that `peslumok` does but its command line, over files in memory: what is asked of records,
//! the pages of their groups, and the tables of these.
#![tactic(auto)]

pub mod after_text;
pub mod front;
pub mod grouping;
pub mod tables;
pub mod top_groups;
