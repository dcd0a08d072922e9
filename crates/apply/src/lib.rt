// What a delta makes of a node, or of nothing.
#![tactic(auto)]

pub mod node;
