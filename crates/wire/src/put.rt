// Writers: each writes what is inside the buffer, and answers the place after all of it, inside or not.
// With an empty buffer the same code measures. A place past the largest usize is the largest usize. No writer that holds buffer and place: the
// place after is each call's answer, which one equation of bytes says (`Put`), and the same rows are written twice, first only to be counted.
ghost use Rattle.std.specs.Prelude.{◌+◌, ◌-◌, ◌<◌, min, ◌≡◌, [], ◌∷◌};
ghost use Rattle.wire.specs.Number.{edge};
ghost use Rattle.wire.specs.Reading.{part as part_of};
ghost use Rattle.wire.specs.Put.{Put, PutsCounted};

use crate::number::put_number;
use crate::part::Part;

// Rows that were written: the place after them, and how many they are. That the count can grow by one is a clause where a row is added: as a fact
// of the type it would not let the count grow.
#[derive(Clone, Copy)]
pub struct Written {
    pub end: usize,
    pub count: u64,
}

impl Written {
    // One row more, which ends there.
    pub fn more(self, end: usize) -> Written
        requires { self.count < edge }
        ensures { (result.end ≡ end) × (result.count ≡ self.count + 1) }
    {
        let count = self.count + 1;
        Written { end, count }
    }
}

// Writes `byte` at `at`, and answers the place after it.
pub fn put_byte(buf: &mut [u8], at: usize, byte: u8) -> usize
    ensures { Put buf.old at (byte ∷ []) result buf.new }
{
    let is_inside = at < buf.len();
    if is_inside {
        buf[at] = byte;
    }
    advance(at, 1)
}

// Writes `bytes` from `at` on, and answers the place after them.
pub fn put_bytes(buf: &mut [u8], at: usize, bytes: &[u8]) -> usize
    ensures { Put buf.old at bytes.now result buf.new }
{
    if at < buf.len() {
        let count = bytes.len().min(buf.len() - at);
        // byte by byte: `copy_from_slice` calls memmove, which a controller would have to bring
        for i in 0..count {
            buf[at + i] = bytes[i];
        }
    }
    advance(at, bytes.len())
}

// Writes a part of the image, or what there is of it, and answers the place after it.
pub fn put_part(buf: &mut [u8], at: usize, image: &[u8], part: Part) -> usize
    ensures { Put buf.old at (part_of image.now part.start part.length) result buf.new }
{
    put_bytes(buf, at, part.of(image))
}

// Writes what `rows` writes, wherever it begins, with its count first.
pub fn put_counted<P: Fn(&mut [u8], usize) -> Written>(buf: &mut [u8], at: usize, rows: P) -> usize
    requires { P.IsAlwaysCallable rows }
    ensures { PutsCounted (P.post rows) buf.old at result buf.new }
{
    let counted = rows(&mut [], 0);
    let first = put_number(buf, at, counted.count);
    let written = rows(buf, first);
    written.end
}

// The place `count` bytes on: `saturating_add`, by what it is for.
pub fn advance(at: usize, count: usize) -> usize
    ensures { result ≡ min (at + count) edge }
{
    at.saturating_add(count)
}
