// The lists of an inode's stack as sources: what its layers say of names, the topmost first.
#![tactic(auto)]

pub mod gather;
