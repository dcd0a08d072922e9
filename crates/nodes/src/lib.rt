// Fields and nodes by value, with the Rust's names: each is read at its place. Texts and lists stay in the image, as places
// beside the value. Crate `records` writes them again.
#![tactic(auto)]

pub mod attr;
pub mod field;
pub mod node;
pub mod part;
