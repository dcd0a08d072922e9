// Replays a fixed list of changes from standard input: each line is written again, with the answer behind it: the new image's bytes,
// or 'refused' and a number. The answers are the published Rust's (rust/oracle). A line is words with one space between; bytes are
// hexadecimal, '-' stands for none. ROOM is the length of the lent target; SECONDS has its sign before it.
//
//     insert INODE DELTA ROOM BYTES                    tombstone INODE ROOM BYTES
//     add INODE NAME CHILD SECONDS NANOS ROOM BYTES    remove INODE NAME SECONDS NANOS ROOM BYTES
//     setparent INODE PARENT ROOM BYTES                update INODE FIELDS ROOM BYTES
//     normalise POSITION ROOM BYTES                    freeze DEPTH BYTES OPERATIONS SECONDS NANOS ROOM BYTES
//     fold ROOM BYTES                                  pop ID ROOM BYTES
//     note BYTES ROOM BYTES                            request REASON ROOM BYTES
//     snapshot ROOM BYTES
#![tactic(auto)]

mod changes;

use changes::answer;
use input::fill;
use script::line::{MOST_LIST, replay};
use std::io;

// As in `vectors`: crate `script` reads no input.
fn main(rt: HostRuntime) -> io::Result<()> {
    let mut list = [0u8; MOST_LIST];
    let length = fill(&mut rt.stdin(), &mut list)?;
    replay(&rt, &list[..length], |rt, line| answer(rt, line))
}
