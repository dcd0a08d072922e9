// The new base: the nodes that fold makes of the stacks of a walk, written.
#![tactic(auto)]

pub mod node;
