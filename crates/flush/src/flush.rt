// The fold of the front batch into the base, and the snapshot of all layers.
ghost use Rattle.std.specs.Prelude.{length};
ghost use Rattle.rules.specs.Initial.{usual};
ghost use Rattle.rules.specs.ChangeCalls.{fold_entries, snapshot_all};
ghost use Rattle.change.specs.Changed.{Changes};

use crate::write::{Flush, write_flushed};
use change::section::open_sections;
use image::rows::rows_at;
use survey::batch::MOST_BATCHES;
use survey::refusal::Refusal;
use walk::open::open_layers;
use writers::tail::read_tail;

// Applies the front batch to the base. The batch stays in the queue.
pub fn fold_entries(img: &[u8], target: &mut [u8]) -> Result<usize, Refusal>
    ensures { Changes (fold_entries usual img.now (length target.old)) target.old result target.new }
{
    let sections = open_sections(img)?;
    let batches = rows_at(img, sections.batches, MOST_BATCHES);
    if batches.count == 0 {
        return Err(Refusal::NoBatch);
    }
    let layers = open_layers(img, sections, 1);
    let walk = layers.walk(img);
    write_flushed(&walk, Flush::Fold(sections.batches), target)
}

// Folds every layer into the base, and drops non-directories with 0 links. Its scratch is that of a fold: a walk and the sources of one list,
// under 10 KiB of stack whatever the image.
pub fn snapshot_all(img: &[u8], target: &mut [u8]) -> Result<usize, Refusal>
    ensures { Changes (snapshot_all usual img.now (length target.old)) target.old result target.new }
{
    let sections = open_sections(img)?;
    let batches = rows_at(img, sections.batches, MOST_BATCHES);
    let layers = open_layers(img, sections, batches.count + 1);
    let (tail, _) = read_tail(img, sections.tail).unwrap();
    let walk = layers.walk(img);
    write_flushed(&walk, Flush::Snapshot(tail.next_id), target)
}
