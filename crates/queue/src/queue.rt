// The queue of batches, and what is staged for the next one.
ghost use Rattle.std.specs.Prelude.{◌≡◌, ◌+◌, false, length, SomeIff};
ghost use Rattle.survey.specs.Reasons.{reason_number, request_number};
ghost use Rattle.writers.specs.Batches.{head_meant};
ghost use Rattle.writers.specs.Tails.{tail_meant};
ghost use Rattle.rules.specs.Queue.{reason_of};
ghost use Rattle.waiting.specs.Queues.{at_capacity, frozen_head};
ghost use Rattle.rules.specs.Initial.{usual};
ghost use Rattle.rules.specs.Refusals.{past_count};
ghost use Rattle.rules.specs.ChangeCalls.{request_freeze, record_mutation, freeze_live, pop_flushed_batch};
ghost use Rattle.change.specs.Changed.{Changes};

use change::batch::pass_batch;
use change::room::write_if_room;
use change::section::open_sections;
use image::field::LAST_WORD;
use image::rows::{Rows, rows_at};
use survey::batch::MOST_BATCHES;
use survey::reason::{LAST_REASON, Reason};
use survey::refusal::Refusal;
use waiting::batch::{Queue, read_queue};
use waiting::write::{Frozen, put_refrozen, put_requeued, put_restaged};
use wire::time::{LAST_NANO, Time};
use writers::batch::BatchHead;
use writers::tail::{Tail, read_tail};

// Requests a freeze, for a reason from 1 to 5; 0 takes a request back. It takes any number, as C gives it.
pub fn request(img: &[u8], reason: u64, target: &mut [u8]) -> Result<usize, Refusal>
    ensures { Changes (request_freeze usual img.now reason (length target.old)) target.old result target.new }
{
    let sections = open_sections(img)?;
    // `try_from` alone doesn't tell: it refuses 0 too, which takes a request back.
    if LAST_REASON < reason {
        return Err(Refusal::BadArgument);
    }
    let (staged, _) = read_tail(img, sections.tail).unwrap();
    let tail = Tail {
        request: Reason::try_from(reason).ok(),
        ..staged
    };
    write_if_room(target, |buf| put_restaged(buf, img, sections, tail))
}

// Stages one operation more, and so many bytes.
pub fn record_mutation(
    img: &[u8],
    additional_bytes: u64,
    target: &mut [u8],
) -> Result<usize, Refusal>
    ensures { Changes (record_mutation usual img.now additional_bytes (length target.old)) target.old result target.new }
{
    let sections = open_sections(img)?;
    let (staged, _) = read_tail(img, sections.tail).unwrap();
    let bytes = counted(staged.bytes, additional_bytes).ok_or(Refusal::CountFull)?;
    let operations = counted(staged.operations, 1).ok_or(Refusal::CountFull)?;
    let tail = Tail {
        bytes,
        operations,
        ..staged
    };
    write_if_room(target, |buf| put_restaged(buf, img, sections, tail))
}

// Makes live the last batch of the queue, unless the queue has reached one of the three limits, which are numbers of the call, as C gives them. Three
// parameters and no struct: it would be made and opened here alone.
pub fn freeze_live(
    img: &[u8],
    depth: u64,
    bytes: u64,
    operations: u64,
    wall_now: Time,
    target: &mut [u8],
) -> Result<usize, Refusal>
    ensures { Changes (freeze_live usual img.now depth bytes operations wall_now (length target.old)) target.old result target.new }
{
    let sections = open_sections(img)?;
    if LAST_NANO < wall_now.nanos as u64 {
        return Err(Refusal::BadArgument);
    }
    let queue = read_queue(img, sections.batches);
    if flushing_at_capacity(queue, depth, bytes, operations) {
        return Err(Refusal::AtCapacity);
    }
    let live = rows_at(img, sections.live, LAST_WORD);
    if live.count == 0 {
        return Err(Refusal::LiveEmpty);
    }
    let (staged, _) = read_tail(img, sections.tail).unwrap();
    let next_id = staged.next_id.checked_add(1).ok_or(Refusal::CountFull)?;
    let frozen = Frozen {
        batches: Rows {
            count: queue.rows.count + 1,
            ..queue.rows
        },
        head: frozen_head(staged, wall_now),
        tail: Tail::unstaged(next_id),
    };
    write_if_room(target, |buf| put_refrozen(buf, img, sections, frozen))
}

// Drops the front batch, whose id it must be.
pub fn pop_flushed_batch(img: &[u8], batch_id: u64, target: &mut [u8]) -> Result<usize, Refusal>
    ensures { Changes (pop_flushed_batch usual img.now batch_id (length target.old)) target.old result target.new }
{
    let sections = open_sections(img)?;
    let batches = rows_at(img, sections.batches, MOST_BATCHES);
    let count = batches.count.checked_sub(1).ok_or(Refusal::NoBatch)?;
    let (head, first) = pass_batch(img, batches.first).unwrap();
    if head.id != batch_id {
        return Err(Refusal::WrongBatch);
    }
    let rest = Rows { first, count };
    write_if_room(target, |buf| put_requeued(buf, img, sections, rest))
}

// Whether the queue has reached one of its limits, or has no place for one batch more.
fn flushing_at_capacity(queue: Queue, depth: u64, bytes: u64, operations: u64) -> bool
    ensures { result ≡ at_capacity queue depth bytes operations }
{
    let waiting = queue.rows.count;
    depth <= waiting
        || bytes <= queue.bytes
        || operations <= queue.operations
        || MOST_BATCHES <= waiting
}

// The head of a batch of all that is staged.
fn frozen_head(staged: Tail, wall_now: Time) -> BatchHead
    ensures { head_meant result ≡ frozen_head (tail_meant staged) wall_now }
{
    BatchHead {
        id: staged.next_id,
        bytes: staged.bytes,
        operations: staged.operations,
        reason: reason_of(staged.request),
        committed: wall_now,
    }
}

// The reason requested, or else a threshold.
fn reason_of(request: Option<Reason>) -> Reason
    ensures { reason_number result ≡ reason_of (request_number request) }
{
    request.unwrap_or(Reason::Threshold)
}

// The sum, if it is not above what a staged count may be.
fn counted(count: u32, more: u64) -> Option<u32>
    ensures { SomeIff result (past_count (count + more) ≡ false) (count + more) }
{
    let more = u32::try_from(more).ok()?;
    count.checked_add(more)
}
