// The head of a batch by value.
ghost use Rattle.wire.specs.Reading.{Reads, meant};
ghost use Rattle.wire.specs.Put.{Put};
ghost use Rattle.survey.specs.Gathering.{batch_head};
ghost use Rattle.writers.specs.Batches.{head_meant};

use image::field::{Inode, Moment, Word};
use nodes::field::ReadField;
use survey::reason::{Reason, read_reason};
use wire::fault::Fault;
use wire::number::put_number;
use wire::time::{Time, put_time};

// What stands before the records of a batch.
#[derive(Clone, Copy)]
pub struct BatchHead {
    pub id: u64,
    pub bytes: u32,
    pub operations: u32,
    pub reason: Reason,
    pub committed: Time,
}

// The head of the batch at `at`, and the place after it.
pub fn read_batch_head(img: &[u8], at: usize) -> Result<(BatchHead, usize), Fault>
    ensures { Reads img.now batch_head.read at (meant head_meant result) }
{
    let (id, named) = Inode::read(img, at)?;
    let (bytes, sized) = Word::read(img, named)?;
    let (operations, counted) = Word::read(img, sized)?;
    let (reason, reasoned) = read_reason(img, counted)?;
    let (committed, next) = Moment::read(img, reasoned)?;
    let head = BatchHead {
        id,
        bytes,
        operations,
        reason,
        committed,
    };
    Ok((head, next))
}

// Writes the head at `at`, and answers the place after it.
pub fn put_batch_head(buf: &mut [u8], at: usize, head: BatchHead) -> usize
    ensures { Put buf.old at (batch_head.write (head_meant head)) result buf.new }
{
    let reason = head.reason.number();
    put_head_numbers(
        buf,
        at,
        head.id,
        head.bytes,
        head.operations,
        reason,
        head.committed,
    )
}

// Writes a head of these numbers at `at`, the reason of any number, and answers the place after it.
pub fn put_head_numbers(
    buf: &mut [u8],
    at: usize,
    id: u64,
    bytes: u32,
    operations: u32,
    reason: u64,
    committed: Time,
) -> usize
    ensures { Put buf.old at (batch_head.write (id, (bytes, (operations, (reason, committed))))) result buf.new }
{
    let named = put_number(buf, at, id);
    let sized = put_number(buf, named, bytes as u64);
    let counted = put_number(buf, sized, operations as u64);
    let reasoned = put_number(buf, counted, reason);
    put_time(buf, reasoned, committed)
}
