// The batches that wait, counted, and images with another queue written.
#![tactic(auto)]

pub mod batch;
pub mod write;
