// Two lists of attribute changes merged, and written.
#![tactic(auto)]

pub mod left;
pub mod merged;
pub mod row;
