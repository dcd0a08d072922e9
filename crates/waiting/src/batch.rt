// The batches of a queue, counted.
ghost use Rattle.std.specs.Prelude.{◌≤◌};
ghost use Rattle.waiting.specs.Queues.{QueueAt, Totalled};

use change::batch::pass_batch;
use image::rows::{Rows, rows_at};
use survey::batch::MOST_BATCHES;

// The queue: its batches, and their bytes and operations in all.
#[derive(Clone, Copy)]
pub struct Queue {
    pub rows: Rows,
    pub bytes: u64,
    pub operations: u64,
}

// The queue whose count is at `at`.
pub fn read_queue(img: &[u8], at: usize) -> Queue
    ensures { QueueAt img.now at result }
{
    let rows = rows_at(img, at, MOST_BATCHES);
    total_batches(img, rows)
}

// The bytes and operations of these batches. That they are at most 16 is a clause, for the sums.
fn total_batches(img: &[u8], rows: Rows) -> Queue
    requires { rows.count ≤ 16 }
    ensures { Totalled img.now rows.first rows.count result }
{
    let mut here = rows.first;
    let mut bytes: u64 = 0;
    let mut operations: u64 = 0;
    for _ in 0..rows.count {
        let Ok((head, end)) = pass_batch(img, here) else {
            break;
        };
        bytes += head.bytes as u64;
        operations += head.operations as u64;
        here = end;
    }
    Queue {
        rows,
        bytes,
        operations,
    }
}
