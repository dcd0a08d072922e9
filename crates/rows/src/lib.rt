// The calls that fill lent rows: the entries of a directory, the names of extended attributes.
#![tactic(auto)]

pub mod listing;
pub mod plan;
