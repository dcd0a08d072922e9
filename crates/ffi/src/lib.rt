// The library for a controller: every call that reads or changes an image, exported to C. Each takes any bytes. One function for each C name.
#![tactic(auto)]

pub mod batches;
pub mod changes;
pub mod listings;
pub mod reads;
pub mod reply;
pub mod texts;
