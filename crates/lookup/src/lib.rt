// The reads of one inode that look for a name in lists: children.
#![tactic(auto)]

pub mod child;
pub mod list;
pub mod rows;
pub mod search;
