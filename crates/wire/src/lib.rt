// The crate beneath the image: numbers, texts and times as bytes, each read and written, and the order of texts.
// Every function answers for every slice and every position, also past the end, and has a full contract.
#![tactic(auto)]

pub mod fault;
pub mod number;
pub mod order;
pub mod part;
pub mod put;
pub mod text;
pub mod time;
