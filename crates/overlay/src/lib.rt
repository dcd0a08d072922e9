// Changes of live records: the writer of images with other live records, insert and tombstone.
#![tactic(auto)]

pub mod delta;
pub mod list;
pub mod live;
pub mod record;
pub mod write;
