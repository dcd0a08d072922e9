// The base and a run of layers, walked all at once by rising inode.
#![tactic(auto)]

pub mod open;
pub mod run;
pub mod step;
pub mod walk;
