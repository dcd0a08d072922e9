// Fields written: one that is always there, and one that may be missing.
ghost use Rattle.std.specs.Option.{option_map};
ghost use Rattle.wire.specs.Combinators.{opt_write};
ghost use Rattle.wire.specs.Put.{Put};
ghost use Rattle.image.specs.Masks.{maybe};

use crate::write::put_text_part;
use image::field::{Inode, Moment, Size, Target, Word};
use nodes::field::ReadField;
use wire::number::put_number;
use wire::part::Part;
use wire::time::{Time, put_time};

// A field that is written by value.
pub trait PutField: ReadField {
    // Writes the field at `at`, and answers the place after it. The bytes of a text stand in the image.
    fn put(buf: &mut [u8], at: usize, img: &[u8], value: Self::Value) -> usize
        ensures { Put buf.old at (Self.layout.write (Self.says img.now value)) result buf.new };
}

impl PutField for Word {
    fn put(buf: &mut [u8], at: usize, _img: &[u8], value: u32) -> usize {
        put_number(buf, at, value as u64)
    }
}

impl PutField for Inode {
    fn put(buf: &mut [u8], at: usize, _img: &[u8], value: u64) -> usize {
        put_number(buf, at, value)
    }
}

impl PutField for Size {
    fn put(buf: &mut [u8], at: usize, _img: &[u8], value: u64) -> usize {
        put_number(buf, at, value)
    }
}

impl PutField for Moment {
    fn put(buf: &mut [u8], at: usize, _img: &[u8], value: Time) -> usize {
        put_time(buf, at, value)
    }
}

impl PutField for Target {
    fn put(buf: &mut [u8], at: usize, img: &[u8], value: Part) -> usize {
        put_text_part(buf, at, img, value)
    }
}

// Writes the field, if it is there.
pub fn put_if<F: PutField>(buf: &mut [u8], at: usize, img: &[u8], option: Option<F::Value>) -> usize
    ensures { Put buf.old at (opt_write F.layout (option_map (F.says img.now) option)) result buf.new }
{
    match option {
        Some(value) => F::put(buf, at, img, value),
        None => at,
    }
}

// Writes 0, or 1 and the field.
pub fn put_maybe<F: PutField>(
    buf: &mut [u8],
    at: usize,
    img: &[u8],
    option: Option<F::Value>,
) -> usize
    ensures { Put buf.old at ((maybe F.layout).write (option_map (F.says img.now) option)) result buf.new }
{
    let Some(value) = option else {
        return put_number(buf, at, 0);
    };
    let next = put_number(buf, at, 1);
    F::put(buf, next, img, value)
}
