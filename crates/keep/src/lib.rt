// The rows of a delta's lists that stay, held against what their names lead to in the layers below.
#![tactic(auto)]

pub mod below;
pub mod keep;
