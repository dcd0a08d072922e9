// Writers of images with another queue or another tail; all else is copied from the old one. Each writes to the front of the
// buffer and answers the place after the image; with an empty buffer it measures.
ghost use Rattle.wire.specs.Put.{Put};
ghost use Rattle.waiting.specs.NewQueues.{restaged, requeued, refrozen};

use change::copy::put_between;
use image::rows::Rows;
use survey::store::Sections;
use wire::number::put_number;
use writers::batch::{BatchHead, put_batch_head};
use writers::tail::{Tail, put_tail};

// These batches, one more than stand there: the last is what live becomes, and has this head. Then this tail.
#[derive(Clone, Copy)]
pub struct Frozen {
    pub batches: Rows,
    pub head: BatchHead,
    pub tail: Tail,
}

// The image with another tail.
pub fn put_restaged(buf: &mut [u8], img: &[u8], sections: Sections, tail: Tail) -> usize
    ensures { Put buf.old 0 (restaged img.now sections tail) result buf.new }
{
    let next = put_between(buf, 0, img, 0, sections.tail);
    put_tail(buf, next, tail)
}

// The image with these batches alone, the last of its own.
pub fn put_requeued(buf: &mut [u8], img: &[u8], sections: Sections, rows: Rows) -> usize
    ensures { Put buf.old 0 (requeued img.now sections rows) result buf.new }
{
    let counted = put_between(buf, 0, img, 0, sections.batches);
    let next = put_number(buf, counted, rows.count);
    put_between(buf, next, img, rows.first, img.len())
}

// The image with live as one batch more, no live records, and another tail.
pub fn put_refrozen(buf: &mut [u8], img: &[u8], sections: Sections, frozen: Frozen) -> usize
    ensures { Put buf.old 0 (refrozen img.now sections frozen) result buf.new }
{
    let counted = put_between(buf, 0, img, 0, sections.batches);
    let queued = put_number(buf, counted, frozen.batches.count);
    let headed = put_between(buf, queued, img, frozen.batches.first, sections.live);
    let recorded = put_batch_head(buf, headed, frozen.head);
    let live = put_between(buf, recorded, img, sections.live, sections.tail);
    let next = put_number(buf, live, 0);
    put_tail(buf, next, frozen.tail)
}
