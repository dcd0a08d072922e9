// The snapshot that a listing shows, and the attributes of its inodes, one after the other.
ghost use Rattle.std.specs.Iterator.{at_most};
ghost use Rattle.lines.specs.Rows.{OpensListing, Gives, ReadsRow};

use crate::inodes::BaseRows;
use attrs::attr::node_attr;
use attrs::node::FileAttr;
use flush::flush::snapshot_all;
use image::field::LAST_WORD;
use image::rows::{Rows, rows_at};
use nodes::node::{Node, read_node};
use survey::refusal::Refusal;
use wire::fault::Fault;
use wire::number::read_number;

// Writes the snapshot of the image to the target, and answers the rows of its base there. A target of 65,536 bytes is enough for any image. The
// scratch is that of a snapshot.
pub fn open_listing(img: &[u8], target: &mut [u8]) -> Result<Rows, Refusal>
    ensures { OpensListing img.now target.old result target.new }
{
    snapshot_all(img, target)?;
    Ok(rows_at(target, 0, LAST_WORD))
}

// The attributes of each inode. It ends where no row can be read.
impl Iterator for BaseRows<'_> {
    type Item = FileAttr;

    ghost next_gives = { Gives };

    ghost remaining = { λ s. at_most s.rows.count };

    fn next(&mut self) -> Option<FileAttr> {
        let count = self.rows.count.checked_sub(1)?;
        let Ok(((inode, node), first)) = read_row(self.img, self.rows.first) else {
            return None;
        };
        self.rows = Rows { first, count };
        Some(node_attr(node, inode))
    }
}

// The inode and the node at a place, and the place after them.
fn read_row(img: &[u8], at: usize) -> Result<((u64, Node), usize), Fault>
    ensures { ReadsRow img.now at result }
{
    let (inode, start) = read_number(img, at, u64::MAX)?;
    let (node, next) = read_node(img, start)?;
    Ok(((inode, node), next))
}
