// Nodes, records and lists by inode, judged and passed over.
#![tactic(auto)]

pub mod inode;
pub mod node;
pub mod record;
