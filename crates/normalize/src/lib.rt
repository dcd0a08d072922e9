// Directory deltas of a layer, held against the layers below.
#![tactic(auto)]

pub mod layer;
pub mod normalize;
pub mod record;
