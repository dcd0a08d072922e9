// The one pass over an image: its verdict, its sections, and the stack of one inode.
#![tactic(auto)]

pub mod batch;
pub mod reason;
pub mod refusal;
pub mod store;
