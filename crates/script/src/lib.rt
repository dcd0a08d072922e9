// A list of calls as text: its lines taken apart into words, and answers written as words.
#![tactic(auto)]

pub mod line;
pub mod show;
