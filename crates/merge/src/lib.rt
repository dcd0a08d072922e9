// Lists by name in an image, merged: the least name first, as the topmost list that has it says.
#![tactic(auto)]

pub mod merge;
pub mod read;
pub mod source;
pub mod sources;
