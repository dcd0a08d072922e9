// Batches, one after the other.
ghost use Rattle.wire.specs.Reading.{Reads, meant};
ghost use Rattle.image.specs.Places.{Ends};
ghost use Rattle.image.specs.RecordLayout.{records};
ghost use Rattle.writers.specs.Batches.{head_meant};
ghost use Rattle.change.specs.Batches.{pass_batch};

use passes::inode::{Held, find_inode};
use wire::fault::Fault;
use writers::batch::{BatchHead, read_batch_head};

// The head of the batch at `at`, and the place after its records.
#[tactic(auto, using(crate::proofs::Batches::passes_batch))]
pub fn pass_batch(img: &[u8], at: usize) -> Result<(BatchHead, usize), Fault>
    ensures { Reads img.now pass_batch at (meant head_meant result) }
{
    let (head, records) = read_batch_head(img, at)?;
    let end = records_end(img, records)?;
    Ok((head, end))
}

// Where the records of a layer at `at` end.
#[tactic(auto, using(crate::proofs::Batches::list_ends))]
pub fn records_end(img: &[u8], at: usize) -> Result<usize, Fault>
    ensures { Ends img.now records.read at result }
{
    let (_, end) = find_inode(img, at, Held::Record, 0)?;
    Ok(end)
}
