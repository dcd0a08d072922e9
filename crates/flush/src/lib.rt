// Layers flushed into the base: the fold of the front batch, and the snapshot of all layers.
#![tactic(auto)]

pub mod flush;
mod write;
