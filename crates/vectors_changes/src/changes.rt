// The changes of an image.
ghost use Rattle.std.specs.Prelude.{◌≤◌};

use directory::directory::{add_dir_entry, remove_dir_entry, update_dir_parent};
use flush::flush::{fold_entries, snapshot_all};
use normalize::normalize::normalize_directory_deltas;
use overlay::live::{insert_new_node, tombstone};
use queue::queue::{freeze_live, pop_flushed_batch, record_mutation, request};
use script::line::{bytes, decimal, room, word};
use script::show;
use std::io;
use survey::refusal::Refusal;
use update::update::update_attr_delta;
use wire::part::Part;
use wire::time::Time;

// The answer of the change that a line asks for; of another line nothing.
pub fn answer(rt: &impl Print, line: &[u8]) -> io::Result<()> {
    let call = word(line, 0);
    change_live(rt, line, call)?;
    change_layers(rt, line, call)
}

// Changes of one inode's live record. Two functions, since all the calls in one would be over 40 lines.
fn change_live(rt: &impl Print, line: &[u8], call: &[u8]) -> io::Result<()> {
    match call {
        b"insert" => lend(
            rt,
            line,
            3,
            |img, given, target| insert_new_node(img, number(line, 1), given, target),
        ),
        b"tombstone" => lend(
            rt,
            line,
            2,
            |img, _, target| tombstone(img, number(line, 1), target),
        ),
        b"add" => lend(
            rt,
            line,
            6,
            |img, given, target| add(line, img, given, target),
        ),
        b"remove" => lend(rt, line, 5, |img, given, target| {
            remove_dir_entry(img, number(line, 1), given, moment(line, 3), target)
        }),
        b"setparent" => lend(
            rt,
            line,
            3,
            |img, _, target| update_dir_parent(img, number(line, 1), number(line, 2), target),
        ),
        b"update" => lend(
            rt,
            line,
            3,
            |img, given, target| update_attr_delta(img, number(line, 1), given, target),
        ),
        _ => Ok(()),
    }
}

fn add(line: &[u8], img: &[u8], given: &[u8], target: &mut [u8]) -> Result<usize, Refusal> {
    let (ino, child) = (number(line, 1), number(line, 3));
    add_dir_entry(img, ino, given, child, moment(line, 4), target)
}

// Changes of whole layers, and of the queue.
fn change_layers(rt: &impl Print, line: &[u8], call: &[u8]) -> io::Result<()> {
    match call {
        b"normalise" => lend(
            rt,
            line,
            2,
            |img, _, target| normalize_directory_deltas(img, number(line, 1), target),
        ),
        b"freeze" => lend(rt, line, 6, |img, _, target| freeze(line, img, target)),
        b"fold" => lend(rt, line, 1, |img, _, target| fold_entries(img, target)),
        b"pop" => lend(
            rt,
            line,
            2,
            |img, _, target| pop_flushed_batch(img, number(line, 1), target),
        ),
        b"note" => lend(
            rt,
            line,
            2,
            |img, _, target| record_mutation(img, number(line, 1), target),
        ),
        b"request" => lend(
            rt,
            line,
            2,
            |img, _, target| request(img, number(line, 1), target),
        ),
        b"snapshot" => lend(rt, line, 1, |img, _, target| snapshot_all(img, target)),
        _ => Ok(()),
    }
}

fn freeze(line: &[u8], img: &[u8], target: &mut [u8]) -> Result<usize, Refusal> {
    let (depth, bytes, operations) = (number(line, 1), number(line, 2), number(line, 3));
    freeze_live(img, depth, bytes, operations, moment(line, 4), target)
}

// The number that a word of the line writes; read where a call takes it, so that other lines, which may be long, are gone over no more than once.
fn number(line: &[u8], at: usize) -> u64 {
    decimal(word(line, at))
}

// Lends a change the image, the second word as bytes, and a target, and writes what it answers. The target's room is word `last`, the image
// the one after it: the words are counted from the front.
fn lend<C: Fn(&[u8], &[u8], &mut [u8]) -> Result<usize, Refusal>>(
    rt: &impl Print,
    line: &[u8],
    last: usize,
    change: C,
) -> io::Result<()>
    requires few { last ≤ 6 }
    requires callable { C.IsAlwaysCallable change }
{
    let mut image = [0u8; 512];
    let mut given = [0u8; 512];
    let mut target = [0u8; 512];
    let image = bytes(word(line, last + 1), &mut image);
    let given = bytes(word(line, 2), &mut given);
    let room = room(word(line, last), 512);
    match change(image, given, &mut target[..room]) {
        Err(refusal) => show::refused(rt, refusal),
        Ok(length) => {
            show::text(rt, b" = image ")?;
            // cut at the end: the closure promises no bound
            show::word(rt, Part::between(0, length).of(&target))
        }
    }
}

// A time of two words, seconds with their sign before them, and nanoseconds; 1970 where the nanoseconds are no 32 bits.
fn moment(line: &[u8], at: usize) -> Time
    requires { at ≤ 4 }
{
    let seconds = seconds(word(line, at));
    u32::try_from(decimal(word(line, at + 1))).map_or(Time::EPOCH, |nanos| Time { seconds, nanos })
}

// Seconds behind their sign: a minus, or any byte for a plus; 0 where they are too many.
fn seconds(word: &[u8]) -> i64 {
    let Some((sign, digits)) = word.split_first() else {
        return 0;
    };
    let size = i64::try_from(decimal(digits)).unwrap_or(0);
    if *sign == b'-' { -size } else { size }
}
