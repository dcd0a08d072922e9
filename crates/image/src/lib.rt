// The layout of the image: what judges and passes over its fields, kinds and lists by name.
#![tactic(auto)]

pub mod field;
pub mod kind;
pub mod name;
pub mod rows;
