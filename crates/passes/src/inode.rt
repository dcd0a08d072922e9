// Lists by inode: the nodes of the base, the records of a layer.
ghost use Rattle.std.specs.Prelude.{◌≤◌, length};
ghost use Rattle.wire.specs.Combinators.{only};
ghost use Rattle.wire.specs.Orders.{by_number};
ghost use Rattle.wire.specs.Lists.{after};
ghost use Rattle.wire.specs.Reading.{Reads};
ghost use Rattle.image.specs.FieldLayout.{inode};
ghost use Rattle.image.specs.Places.{Ends};
ghost use Rattle.passes.specs.Held.{held, Finds, FindsRows};

use crate::node::pass_node;
use crate::record::pass_record;
use image::field::LAST_WORD;
use image::rows::{Rows, read_rows};
use wire::fault::Fault;
use wire::number::read_number;

// What stands under each inode of a list.
#[derive(Clone, Copy)]
pub enum Held {
    Node,
    Record,
}

// The inode at `at`, which is after the one before it, if there is one, and the place after it. Beside `name_after` (image), which says why.
pub fn inode_after(img: &[u8], at: usize, before: Option<u64>) -> Result<(u64, usize), Fault>
    ensures { Reads img.now (only (after by_number before) inode).read at result }
{
    let (number, next) = read_number(img, at, u64::MAX)?;
    if before.is_some_and(|last| number <= last) {
        return Err(Fault::Malformed);
    }
    Ok((number, next))
}

// Passes what stands under an inode. A `match`, no type parameter: the laws of a walk speak of both kinds of list at once, so the kind is a value.
pub fn pass_held(img: &[u8], at: usize, what: Held) -> Result<usize, Fault>
    ensures { Ends img.now (held what).read at result }
{
    match what {
        Held::Node => pass_node(img, at),
        Held::Record => pass_record(img, at),
    }
}

// Passes a list by inode, and finds the place of what stands under one inode, which is after the inode. Answers that place, and the one after the list.
pub fn find_inode(
    img: &[u8],
    at: usize,
    what: Held,
    sought: u64,
) -> Result<(Option<usize>, usize), Fault>
    ensures { Finds img.now what sought at result }
{
    let rows = read_rows(img, at, LAST_WORD)?;
    find_in(img, rows, what, sought)
}

// The same of rows without their count. The first in the image, as at `Rows`.
#[tactic(auto, using(crate::proofs::Inodes::finds))]
fn find_in(img: &[u8], rows: Rows, what: Held, sought: u64) -> Result<(Option<usize>, usize), Fault>
    requires { rows.first ≤ length img.now }
    ensures { FindsRows img.now what sought rows.first rows.count result }
{
    let mut here = rows.first;
    let mut before: Option<u64> = None;
    let mut place: Option<usize> = None;
    for _row in 0..rows.count {
        let (inode, start) = inode_after(img, here, before)?;
        here = pass_held(img, start, what)?;
        place = place.or((inode == sought).then_some(start));
        before = Some(inode);
    }
    Ok((place, here))
}
