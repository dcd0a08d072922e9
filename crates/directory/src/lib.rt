// Changes of one inode's live directory delta: its entries and its parent.
#![tactic(auto)]

pub mod directory;
pub mod name;
