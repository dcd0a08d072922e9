// update_attr_delta: the fields given, merged into an inode's live delta.
#![tactic(auto)]

pub mod update;
