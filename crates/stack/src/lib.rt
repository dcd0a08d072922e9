// The stack of one inode: opened, read record by record, asked from the top, and its type.
#![tactic(auto)]

pub mod file_type;
pub mod name;
pub mod open;
pub mod question;
pub mod read;
pub mod stack;
