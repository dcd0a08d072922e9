// The calls that read the layers of an image. Each answers for any bytes, or refuses by a number of document 01.
#![tactic(auto)]

pub mod attr;
pub mod layers;
