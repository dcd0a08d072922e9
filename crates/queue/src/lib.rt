// The queue of batches: freeze, pop, and what is staged for the next freeze.
#![tactic(auto)]

pub mod queue;
