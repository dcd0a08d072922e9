// The nodes that a walk over the base and layers gives, each stack folded, one after the other by rising inode.
ghost use Rattle.std.specs.Prelude.{List, ◌≡◌, ◌+◌, ℕ, ◌<◌, ◌≤◌, length};
ghost use Rattle.wire.specs.Number.{edge};
ghost use Rattle.fold.specs.FoldedNodes.{folded_in};
ghost use Rattle.walk.specs.Walks.{NodeEnds, pieces_in, stacks_left};
ghost use Rattle.base.specs.Nodes.{Keeps, Stays, KeptAt, StaysAt, kept_if, PutsRow, nodes_of, PutsNodes};

use change::copy::put_between;
use fold::folded::{folded_node, put_folded};
use image::field::{Field, Word};
use image::kind::{FileType, read_file_type};
use nodes::field::ReadField;
use nodes::node::Node;
use walk::walk::{Step, Walk};
use wire::fault::Fault;
use wire::number::put_number;
use wire::put::Written;

// Whether a snapshot keeps a node with so many links: it drops non-directories with 0 links.
fn is_kept(links: u32, file_type: FileType) -> bool
    ensures { Keeps links file_type result }
{
    links != 0 || file_type == FileType::Directory
}

// Whether the node stays, where some are dropped and where none are.
fn stays(node: Node, drops: bool) -> bool
    ensures { Stays node drops result }
{
    !drops || is_kept(node.meta.nlink, node.kind.file_type())
}

// Whether a snapshot keeps the node that is read at a place: its kind, permission and links are its first numbers. The rest is not read: that
// would pass all its lists again.
fn kept_at(img: &[u8], place: usize) -> Result<bool, Fault>
    ensures { KeptAt img.now place result }
{
    let (kind, permitted) = read_file_type(img, place)?;
    let linked = Word::pass(img, permitted)?;
    let (links, _) = Word::read(img, linked)?;
    Ok(is_kept(links, kind))
}

// Whether the node at a place stays. Where none are dropped, as in a fold, it is not read: so `drops` is a bool, and no closure that judges a node.
fn stays_at(img: &[u8], place: usize, drops: bool) -> bool
    ensures { StaysAt img.now place drops result }
{
    !drops || kept_at(img, place).unwrap_or(true)
}

// Copies the base node of a step with its inode, if there is one and it stays. Two: this one copies bytes, `put_folded_node` folds a stack; a
// closure for both would carry either's clauses.
fn put_base_node(buf: &mut [u8], so_far: Written, step: &Step, drops: bool) -> Written
    requires { NodeEnds step.now.stack.img.now step.now.stack.places.base step.now.end × (so_far.count < edge) }
    ensures { PutsRow buf.old so_far step.entry.now.inode (kept_if drops (pieces_in step.entry.now.stack).1) result buf.new }
{
    let stack = step.stack;
    let Some((place, end)) = stack.places.base.zip(step.end) else {
        return so_far;
    };
    if stays_at(stack.img, place, drops) {
        let first = put_number(buf, so_far.end, step.inode);
        let next = put_between(buf, first, stack.img, place, end);
        return so_far.more(next);
    }
    so_far
}

// Writes the inode and the node that fold makes of its stack, if there is one and it stays.
fn put_folded_node(buf: &mut [u8], so_far: Written, step: &Step, drops: bool) -> Written
    requires { so_far.count < edge }
    ensures { PutsRow buf.old so_far step.entry.now.inode (kept_if drops (folded_in step.entry.now.stack)) result buf.new }
{
    let Some(folded) = folded_node(step.stack) else {
        return so_far;
    };
    if stays(folded.node, drops) {
        let place = put_number(buf, so_far.end, step.inode);
        let end = put_folded(buf, place, step.stack, folded);
        return so_far.more(end);
    }
    so_far
}

// Writes the node of a step, if there is one and it stays: with no record over it it is copied, else folded.
fn put_node_of(buf: &mut [u8], so_far: Written, step: &Step, drops: bool) -> Written
    requires { NodeEnds step.now.stack.img.now step.now.stack.places.base step.now.end × (so_far.count < edge) }
    ensures { PutsRow buf.old so_far step.entry.now.inode (kept_if drops (folded_in step.entry.now.stack)) result buf.new }
{
    if step.stack.places.count == 0 {
        return put_base_node(buf, so_far, step, drops);
    }
    put_folded_node(buf, so_far, step, drops)
}

// Writes the nodes of the stacks that the walk has left, of which a number holds the count.
pub fn put_nodes(buf: &mut [u8], at: usize, walk: &Walk, drops: bool) -> Written
    requires { length (stacks_left walk.now) ≤ edge }
    ensures { PutsNodes buf.old at (nodes_of drops (stacks_left walk.entry.now)) result buf.new }
{
    let mut nodes = Written { end: at, count: 0 };
    for step in *walk {
        nodes = put_node_of(buf, nodes, &step, drops);
    }
    nodes
}
