// The fields of an update, over those of a live delta.
#![tactic(auto)]

pub mod fields;
