// The records of a layer as values, read at a place of the image.
#![tactic(auto)]

pub mod delta;
