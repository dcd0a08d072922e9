// Fold: the node that the records of a stack make of its base node, written.
#![tactic(auto)]

pub mod folded;
pub mod list;
