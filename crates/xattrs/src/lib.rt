// Extended attributes by name: their values and whether they are there.
#![tactic(auto)]

pub mod xattr;
