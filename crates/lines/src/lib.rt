// The lines of the listing program, and the snapshot that they show.
#![tactic(auto)]

pub mod digit;
pub mod inodes;
pub mod line;
pub mod rows;
