// The attributes of a node, and what deltas make of them. The Rust program has this in src/node.rs.
#![tactic(auto)]

pub mod attr;
pub mod node;
