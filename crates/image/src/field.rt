// Single fields, and how each is passed over.
ghost use Rattle.std.specs.Prelude.{◌≤◌, ℕ, length};
ghost use Rattle.wire.specs.Codec.{Codec};
ghost use Rattle.wire.specs.Combinators.{opt-read};
ghost use Rattle.wire.specs.Number.{number_read};
ghost use Rattle.wire.specs.Text.{text-read};
ghost use Rattle.wire.specs.Time.{time};
ghost use Rattle.wire.specs.declared.time.Time.{Time};
ghost use Rattle.image.specs.Meaning.{Text};
ghost use Rattle.image.specs.FieldLayout.{word, inode, size, moment, target, value};
ghost use Rattle.image.specs.Places.{Ends, maybe_read};

use wire::fault::Fault;
use wire::number::read_number;
use wire::text::read_text;
use wire::time::{LAST_NANO, Time};

// The largest count, owner or device.
pub const LAST_WORD: u64 = u32::MAX as u64;

// The largest size.
pub const LAST_SIZE: u64 = i64::MAX as u64;

// The largest mask of a record's nine fields.
pub const LAST_MASK: u64 = 511;

// The most bytes of a name, of a link's target, and of an attribute's value.
pub const LAST_NAME: u64 = 255;

pub const LAST_TARGET: u64 = 4095;

pub const LAST_VALUE: u64 = 4096;

// Passes a number.
pub fn pass_number(img: &[u8], at: usize, most: u64) -> Result<usize, Fault>
    ensures { Ends img.now (number_read most) at result }
{
    let (_, next) = read_number(img, at, most)?;
    Ok(next)
}

// Passes a text.
pub fn pass_text(img: &[u8], at: usize, least: u64, most: u64) -> Result<usize, Fault>
    ensures { Ends img.now (text-read least most) at result }
{
    let (_, next) = read_text(img, at, least, most)?;
    Ok(next)
}

// Passes a time.
#[tactic(auto, using(crate::proofs::Passing::passes), unfolding(wire::specs::Time::time))]
pub fn pass_time(img: &[u8], at: usize) -> Result<usize, Fault>
    ensures { Ends img.now time.read at result }
{
    let nanos = pass_number(img, at, u64::MAX)?;
    pass_number(img, nanos, LAST_NANO)
}

// A field as the layout has it. Each is a type of its own, by the layout's name for it: a const parameter for the limit, tried for `Inode` and
// `Size`, wants a proof of its bound in each `layout`, and says a number where now a name stands.
pub trait Field {
    ghost Said: { Type 0 };

    ghost layout: { Codec Said };

    // Passes it: answers the place after it, or why it stopped.
    fn pass(img: &[u8], at: usize) -> Result<usize, Fault>
        ensures { Ends img.now layout.read at result };
}

// A number below 2^32.
pub struct Word;

impl Field for Word {
    ghost Said = { ℕ };

    ghost layout = { word };

    fn pass(img: &[u8], at: usize) -> Result<usize, Fault> {
        pass_number(img, at, LAST_WORD)
    }
}

// An inode: any number.
pub struct Inode;

impl Field for Inode {
    ghost Said = { ℕ };

    ghost layout = { inode };

    fn pass(img: &[u8], at: usize) -> Result<usize, Fault> {
        pass_number(img, at, u64::MAX)
    }
}

// A file's size: a number below 2^63.
pub struct Size;

impl Field for Size {
    ghost Said = { ℕ };

    ghost layout = { size };

    fn pass(img: &[u8], at: usize) -> Result<usize, Fault> {
        pass_number(img, at, LAST_SIZE)
    }
}

// A time.
pub struct Moment;

impl Field for Moment {
    ghost Said = { Time };

    ghost layout = { moment };

    fn pass(img: &[u8], at: usize) -> Result<usize, Fault> {
        pass_time(img, at)
    }
}

// The target of a link.
pub struct Target;

impl Field for Target {
    ghost Said = { Text };

    ghost layout = { target };

    fn pass(img: &[u8], at: usize) -> Result<usize, Fault> {
        pass_text(img, at, 0, LAST_TARGET)
    }
}

// The value of an extended attribute.
pub struct XattrValue;

impl Field for XattrValue {
    ghost Said = { Text };

    ghost layout = { value };

    fn pass(img: &[u8], at: usize) -> Result<usize, Fault> {
        pass_text(img, at, 0, LAST_VALUE)
    }
}

// A field that is there if the bit is 1. The bit is a number and no `bool`: the layout of a mask halves the number that the bits are, and so do its
// laws. The place in the image, here and below, as in `pass_under`.
#[tactic(auto, using(crate::proofs::Passing::passes))]
pub fn pass_if<F: Field>(img: &[u8], at: usize, bit: u64) -> Result<usize, Fault>
    requires { (bit ≤ 1) × (at ≤ length img.now) }
    ensures { Ends img.now (opt-read F.layout.read bit) at result }
{
    if bit == 0 {
        return Ok(at);
    }
    F::pass(img, at)
}

// 0, or 1 and a field.
#[tactic(auto, using(crate::proofs::Passing::passes))]
pub fn pass_maybe<F: Field>(img: &[u8], at: usize) -> Result<usize, Fault>
    ensures { Ends img.now (maybe_read F.layout.read) at result }
{
    let (bit, next) = read_number(img, at, 1)?;
    pass_if::<F>(img, next, bit)
}
