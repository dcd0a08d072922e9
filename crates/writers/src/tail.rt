// What stands after live, at the end of an image, by value.
ghost use Rattle.std.specs.Prelude.{◌≡◌, None};
ghost use Rattle.wire.specs.Reading.{Reads, meant};
ghost use Rattle.wire.specs.Put.{Put};
ghost use Rattle.survey.specs.Reasons.{request_number};
ghost use Rattle.writers.specs.Tails.{tail as tailCodec, tail_meant};

use image::field::{Inode, Word};
use nodes::field::ReadField;
use survey::reason::{LAST_REASON, Reason};
use wire::fault::Fault;
use wire::number::{put_number, read_number};

// The next id, the staged counts, and the reason of a requested freeze, if there is one.
#[derive(Clone, Copy)]
pub struct Tail {
    pub next_id: u64,
    pub bytes: u32,
    pub operations: u32,
    pub request: Option<Reason>,
}

impl Tail {
    // The tail of an image with nothing staged and no request.
    pub fn unstaged(next_id: u64) -> Tail
        ensures { (result.next_id ≡ next_id) × (result.bytes ≡ 0) × (result.operations ≡ 0) × (result.request ≡ None) }
    {
        Tail {
            next_id,
            bytes: 0,
            operations: 0,
            request: None,
        }
    }
}

// The tail at `at`, and the place after it.
#[tactic(auto, using(wire::proofs::Readers::times, survey::proofs::Numbered::request_of))]
pub fn read_tail(img: &[u8], at: usize) -> Result<(Tail, usize), Fault>
    ensures { Reads img.now tailCodec.read at (meant tail_meant result) }
{
    let (next_id, named) = Inode::read(img, at)?;
    let (bytes, sized) = Word::read(img, named)?;
    let (operations, counted) = Word::read(img, sized)?;
    let (number, next) = read_number(img, counted, LAST_REASON)?;
    let tail = Tail {
        next_id,
        bytes,
        operations,
        request: Reason::try_from(number).ok(),
    };
    Ok((tail, next))
}

// Writes the tail at `at`, and answers the place after it.
pub fn put_tail(buf: &mut [u8], at: usize, tail: Tail) -> usize
    ensures { Put buf.old at (tailCodec.write (tail_meant tail)) result buf.new }
{
    let request = request_number(tail.request);
    put_tail_numbers(buf, at, tail.next_id, tail.bytes, tail.operations, request)
}

// Writes a tail of these numbers at `at`, the request of any number, and answers the place after it.
pub fn put_tail_numbers(
    buf: &mut [u8],
    at: usize,
    next_id: u64,
    bytes: u32,
    operations: u32,
    request: u64,
) -> usize
    ensures { Put buf.old at (tailCodec.write (next_id, (bytes, (operations, request)))) result buf.new }
{
    let named = put_number(buf, at, next_id);
    let sized = put_number(buf, named, bytes as u64);
    let counted = put_number(buf, sized, operations as u64);
    put_number(buf, counted, request)
}

// The number of a request in the image; 0 for none.
fn request_number(request: Option<Reason>) -> u64
    ensures { result ≡ request_number request }
{
    request.map_or(0, Reason::number)
}
