// Replays a fixed list of vectors from standard input: each line is written again, with the answer behind it.
// A line is words with one space between; a line that begins with '#' is a comment. Bytes are hexadecimal, '-' stands for none.
//
//     number MOST BYTES            the number, the bytes it took, and how it is written
//     text LEAST MOST BYTES        where the text starts, its length, the bytes it took, and how it is written
//     time BYTES                   the seconds and nanoseconds, the bytes it took, and how it is written
//     compare BYTES START LENGTH NAME     a part of the bytes against a name
//     image INODE BYTES            the place of the inode's node, '-' for none, and of its records, front batch first; or the refusal
//
// The reads, whose answers are the published Rust's (rust/oracle). Each may answer 'none', or 'refused' and a number.
//
//     exists INODE BYTES           yes, or no
//     type INODE BYTES             the letter of the type
//     child INODE NAME BYTES       the inode
//     attr INODE BYTES             type, permission in octal, links, owner, group, device, size, times as SECONDS.NANOS
//     list INODE ROWS BYTES        how many entries, and each as NAME:INODE
//     link INODE BYTES             the target
//     parent INODE BYTES           the inode
//     xattr INODE NAME BYTES       the value
//     names INODE ROWS BYTES       how many names of extended attributes, and each
#![tactic(auto)]

mod answer;
mod lend;
mod list;
mod reads;

use answer::answer;
use input::fill;
use script::line::{MOST_LIST, replay};
use std::io;

fn main(rt: HostRuntime) -> io::Result<()> {
    let mut list = [0u8; MOST_LIST];
    let length = fill(&mut rt.stdin(), &mut list)?;
    replay(&rt, &list[..length], |rt, line| answer(rt, line))
}
