// Texts: the length, then as many bytes.
ghost use Rattle.std.specs.Prelude.{◌≡◌};
ghost use Rattle.wire.specs.Text.{text_bytes, text-read};
ghost use Rattle.wire.specs.Reading.{ReadsPart};
ghost use Rattle.wire.specs.Put.{Put};

use crate::fault::Fault;
use crate::number::{put_number, read_number};
use crate::part::Part;
use crate::put::put_bytes;

// The text at `at`, of `least` to `most` bytes, which is a part of the image, and the place after it.
#[tactic(auto, using(crate::proofs::Readers::texts))]
pub fn read_text(s: &[u8], at: usize, least: u64, most: u64) -> Result<(Part, usize), Fault>
    ensures { ReadsPart s.now (text-read least most) at result }
{
    let (count, start) = read_number(s, at, most)?;
    if count < least {
        return Err(Fault::Malformed);
    }
    let left = (s.len() - start) as u64;
    if left < count {
        return Err(Fault::Ended);
    }
    let length = count as usize;
    Ok((Part { start, length }, start + length))
}

// Writes the text at `at`, and answers the place after it.
pub fn put_text(buf: &mut [u8], at: usize, text: &[u8]) -> usize
    ensures { Put buf.old at (text_bytes text.now) result buf.new }
{
    let next = put_number(buf, at, text.len() as u64);
    put_bytes(buf, next, text)
}
