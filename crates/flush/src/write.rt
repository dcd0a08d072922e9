// The writer of images with another base.
ghost use Rattle.std.specs.Prelude.{length, ◌≡◌, ◌≤◌};
ghost use Rattle.wire.specs.Number.{edge};
ghost use Rattle.wire.specs.Put.{Put};
ghost use Rattle.change.specs.Changed.{Changes, if_fits};
ghost use Rattle.walk.specs.Walks.{stacks_left};
ghost use Rattle.flush.specs.Flushes.{drops_of, emptied, rest_bytes, flushed};

use base::node::put_nodes;
use change::copy::put_between;
use change::room::lacks_room;
use survey::refusal::Refusal;
use walk::walk::Walk;
use wire::number::put_number;
use wire::put::advance;
use writers::tail::{Tail, put_tail};

// What follows the new base. No closure: one value says what is dropped and what follows; a contract over closures would take both.
#[derive(Clone, Copy)]
pub enum Flush {
    // the old image, from its batches on
    Fold(usize),
    // no batch and no live record; this next id, and nothing staged
    Snapshot(u64),
}

// A snapshot drops non-directories with 0 links.
fn drops_of(flush: Flush) -> bool
    ensures { result ≡ drops_of flush }
{
    matches!(flush, Flush::Snapshot(_))
}

// A store's end with nothing but its next id.
fn put_emptied(buf: &mut [u8], at: usize, next_id: u64) -> usize
    ensures { Put buf.old at (emptied next_id) result buf.new }
{
    let live = put_number(buf, at, 0);
    let end = put_number(buf, live, 0);
    put_tail(buf, end, Tail::unstaged(next_id))
}

// What follows the new base.
fn put_rest(buf: &mut [u8], at: usize, img: &[u8], flush: Flush) -> usize
    ensures { Put buf.old at (rest_bytes img.now flush) result buf.new }
{
    match flush {
        Flush::Fold(batches) => put_between(buf, at, img, batches, img.len()),
        Flush::Snapshot(next_id) => put_emptied(buf, at, next_id),
    }
}

// Measures the new image, and writes it to the target if there is room. By itself and not by `write_if_room`: the count of the nodes stands
// before them, so that would walk the layers a third time.
pub fn write_flushed(walk: &Walk, flush: Flush, target: &mut [u8]) -> Result<usize, Refusal>
    requires { length (stacks_left walk.now) ≤ edge }
    ensures { Changes (if_fits (flushed walk.entry.now flush) (length target.old)) target.old result target.new }
{
    let img = walk.img;
    let drops = drops_of(flush);
    let nodes = put_nodes(&mut [], 0, walk, drops);
    let count = put_number(&mut [], 0, nodes.count);
    let size = put_rest(&mut [], advance(count, nodes.end), img, flush);
    if lacks_room(size, target.len()) {
        return Err(Refusal::NoRoom);
    }
    let start = put_number(target, 0, nodes.count);
    let base = put_nodes(target, start, walk, drops);
    let end = put_rest(target, base.end, img, flush);
    Ok(end)
}
