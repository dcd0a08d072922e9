// The calls that change the queue of batches and the base. Each writes the new image to the target, or refuses and writes nothing.
ghost use Rattle.std.specs.Prelude.{length};
ghost use Rattle.rules.specs.Initial.{usual};
ghost use Rattle.rules.specs.ChangeCalls.{freeze_live, fold_entries, pop_flushed_batch, record_mutation, request_freeze, snapshot_all};
ghost use Rattle.ffi.specs.Replies.{ChangeReplies, time_given};

use crate::reply::ChangeReply;
use flush::flush::{fold_entries, snapshot_all};
use queue::queue::{freeze_live, pop_flushed_batch, record_mutation, request};
use wire::time::Time;

// Makes live the last batch, unless the queue has reached a limit on batches, their bytes or their operations.
#[unsafe(no_mangle)]
pub extern "C" fn appendfs_freeze_live(
    img: &[u8],
    depth: u64,
    bytes: u64,
    operations: u64,
    seconds: i64,
    nanos: u32,
    target: &mut [u8],
) -> ChangeReply
    ensures { ChangeReplies (freeze_live usual img.now depth bytes operations (time_given seconds nanos) (length target.old)) target.old result target.new }
{
    let time = Time { seconds, nanos };
    ChangeReply::from(freeze_live(img, depth, bytes, operations, time, target))
}

// Applies the front batch to the base.
#[unsafe(no_mangle)]
pub extern "C" fn appendfs_fold_entries(img: &[u8], target: &mut [u8]) -> ChangeReply
    ensures { ChangeReplies (fold_entries usual img.now (length target.old)) target.old result target.new }
{
    ChangeReply::from(fold_entries(img, target))
}

// Drops the front batch, whose id it must be.
#[unsafe(no_mangle)]
pub extern "C" fn appendfs_pop_flushed_batch(
    img: &[u8],
    batch_id: u64,
    target: &mut [u8],
) -> ChangeReply
    ensures { ChangeReplies (pop_flushed_batch usual img.now batch_id (length target.old)) target.old result target.new }
{
    ChangeReply::from(pop_flushed_batch(img, batch_id, target))
}

// Stages one operation more, and so many bytes.
#[unsafe(no_mangle)]
pub extern "C" fn appendfs_record_mutation(
    img: &[u8],
    additional_bytes: u64,
    target: &mut [u8],
) -> ChangeReply
    ensures { ChangeReplies (record_mutation usual img.now additional_bytes (length target.old)) target.old result target.new }
{
    ChangeReply::from(record_mutation(img, additional_bytes, target))
}

// Requests a freeze, for a reason from 1 to 5; 0 takes a request back. C gives a number.
#[unsafe(no_mangle)]
pub extern "C" fn appendfs_request(img: &[u8], reason: u64, target: &mut [u8]) -> ChangeReply
    ensures { ChangeReplies (request_freeze usual img.now reason (length target.old)) target.old result target.new }
{
    ChangeReply::from(request(img, reason, target))
}

// Folds every layer into the base, and drops non-directories with 0 links.
#[unsafe(no_mangle)]
pub extern "C" fn appendfs_snapshot_all(img: &[u8], target: &mut [u8]) -> ChangeReply
    ensures { ChangeReplies (snapshot_all usual img.now (length target.old)) target.old result target.new }
{
    ChangeReply::from(snapshot_all(img, target))
}
