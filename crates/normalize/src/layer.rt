// The records of a layer, each held against the layers below.
ghost use Rattle.normalize.specs.Rows.{PutsStep, PutsRows};

use crate::record::put_normal_record;
use walk::walk::{Step, Walk};
use wire::number::put_number;

// Writes the record of one inode, if the topmost layer has one.
fn put_normal_step(buf: &mut [u8], at: usize, step: Step) -> usize
    ensures { PutsStep step.entry buf.old at result buf.new }
{
    let stack = step.stack;
    if step.top && 0 < stack.places.count {
        let record = put_number(buf, at, step.inode);
        return put_normal_record(buf, record, stack);
    }
    at
}

// Writes the records of the topmost layer of a walk.
pub fn put_normal_rows(buf: &mut [u8], at: usize, walk: &Walk) -> usize
    ensures { PutsRows walk.entry.now buf.old at result buf.new }
{
    let mut next = at;
    for step in *walk {
        next = put_normal_step(buf, next, step);
    }
    next
}
