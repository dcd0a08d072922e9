// What the calls that change an image share: the sections of the image, the cut at an inode, the room of a target.
#![tactic(auto)]

pub mod batch;
pub mod copy;
pub mod cut;
pub mod room;
pub mod section;
