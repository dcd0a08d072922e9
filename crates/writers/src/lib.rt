// Writers of fields, attributes, batch heads and the end of an image. Each answers the place after what it writes; with an empty buffer it
// measures.
#![tactic(auto)]

pub mod batch;
pub mod field;
pub mod tail;
pub mod write;
pub mod write_attr;
