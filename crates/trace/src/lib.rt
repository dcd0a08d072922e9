// What each layer says of a name, and which layer decides.
#![tactic(auto)]

pub mod said;
