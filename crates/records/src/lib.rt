// Nodes and records written.
#![tactic(auto)]

pub mod write_node;
