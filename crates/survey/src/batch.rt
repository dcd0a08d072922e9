// The batches of the queue, and the records that they hold of one inode.
ghost use Rattle.std.specs.Prelude.{◌≤◌, ◌≡◌, length};
ghost use Rattle.image.specs.Places.{Ends};
ghost use Rattle.survey.specs.Gathering.{head_rest, Bare, Pushed, Gathers, GathersQueue};

use crate::reason::read_reason;
use image::field::{Field, Moment, Word};
use image::rows::{Rows, read_rows};
use passes::inode::{Held, find_inode, inode_after};
use wire::fault::Fault;

// The most batches that may wait.
pub const MOST_BATCHES: u64 = 16;

// The most layers: the batches, and live.
pub const MOST_LAYERS: usize = 17;

// An inode's node in the base, and its records in the layers that have one: `count` places, the front batch's first.
// No `Vec`: the project has no heap; an inode has no more places than there are layers. No `ArrayVec` either: each read takes a stack by value, and
// that is not `Copy`. Its bounds are said where it grows, and are no facts of the type: the theorem also speaks of stacks that no code makes
// (rules/proofs/PlacedStack).
#[derive(Clone, Copy)]
pub struct InodeLayerStack {
    pub base: Option<usize>,
    pub deltas: [usize; MOST_LAYERS],
    pub count: usize,
}

// What the queue has of an inode, over its node in the base, and the id of the last batch.
#[derive(Clone, Copy)]
pub struct Batches {
    pub stack: InodeLayerStack,
    pub last: Option<u64>,
}

// The stack of an inode that no layer has a record of.
pub fn bare_stack(base: Option<usize>) -> InodeLayerStack
    ensures { Bare base result }
{
    InodeLayerStack {
        base,
        deltas: [0; MOST_LAYERS],
        count: 0,
    }
}

// The stack with one place more, if there is one.
pub fn pushed(stack: InodeLayerStack, place: Option<usize>) -> InodeLayerStack
    requires { stack.count ≤ 16 }
    ensures { Pushed stack place result }
{
    match place {
        Some(p) => {
            let at = stack.count;
            let mut out = stack;
            out.deltas[at] = p;
            out.count = at + 1;
            out
        }
        None => stack,
    }
}

// Passes the rest of a batch's head: bytes, operations, reason and commit time. Beside `read_batch_head` (writers), as `pass_node` beside
// `read_node`.
#[tactic(auto, using(image::proofs::Passing::passes))]
fn pass_head_rest(img: &[u8], at: usize) -> Result<usize, Fault>
    ensures { Ends img.now head_rest.read at result }
{
    let operations = Word::pass(img, at)?;
    let reasoned = Word::pass(img, operations)?;
    let (_, committed) = read_reason(img, reasoned)?;
    Moment::pass(img, committed)
}

// Passes batches, and gathers the places of the records that they hold of one inode. That they are at most 16 is a clause, for the places of
// the stack. Not `find_in` (passes), which goes over rows by inode too: what is gathered at a row is another law.
#[tactic(auto, using(crate::proofs::Batches::gathers))]
fn gather_batches(
    img: &[u8],
    rows: Rows,
    sought: u64,
    base: Option<usize>,
) -> Result<(Batches, usize), Fault>
    requires { (rows.first ≤ length img.now) × (rows.count ≤ 16) }
    ensures { Gathers img.now sought rows.first rows.count base result }
{
    let mut here = rows.first;
    let mut last: Option<u64> = None;
    let mut stack = bare_stack(base);
    for _batch in 0..rows.count {
        let (id, named) = inode_after(img, here, last)?;
        let records = pass_head_rest(img, named)?;
        let (place, end) = find_inode(img, records, Held::Record, sought)?;
        stack = pushed(stack, place);
        last = Some(id);
        here = end;
    }
    Ok((Batches { stack, last }, here))
}

// Passes the list of batches at `at`, its count first, over the node found in the base, and answers what it has and the place after it.
#[tactic(auto, using(crate::proofs::Batches::gathers))]
pub fn gather_queue(
    img: &[u8],
    at: usize,
    sought: u64,
    base: Option<usize>,
) -> Result<(Batches, usize), Fault>
    ensures { GathersQueue img.now sought at base result }
{
    let rows = read_rows(img, at, MOST_BATCHES)?;
    gather_batches(img, rows, sought, base)
}
