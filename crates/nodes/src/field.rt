// Fields by value: one that is always there, and one that may be missing.
ghost use Rattle.std.specs.Prelude.{◌≤◌, ◌+◌, ℕ, List, length};
ghost use Rattle.std.specs.Option.{option_map};
ghost use Rattle.wire.specs.Codec.{Codec};
ghost use Rattle.wire.specs.Combinators.{opt-read};
ghost use Rattle.wire.specs.declared.time.Time.{Time};
ghost use Rattle.image.specs.declared.name.Under.TheVariants as U;
ghost use Rattle.image.specs.Meaning.{Text, Changes as ChangesMeant};
ghost use Rattle.image.specs.FieldLayout.{word, inode, size, moment, target, value};
ghost use Rattle.image.specs.RecordLayout.{changes};
ghost use Rattle.image.specs.Places.{maybe_read};
ghost use Rattle.nodes.specs.Options.{text_at, Inside};
ghost use Rattle.nodes.specs.Listed.{list_at, Listed};
ghost use Rattle.nodes.specs.Fields.{holds_if, ReadsAs};

use crate::part::read_names;
use image::field::{
    Inode, LAST_SIZE, LAST_TARGET, LAST_VALUE, LAST_WORD, Moment, Size, Target, Word, XattrValue,
};
use image::name::{Changes, Under};
use wire::fault::Fault;
use wire::number::read_number;
use wire::part::Part;
use wire::text::read_text;
use wire::time::{Time, read_time};

// A field that is read by value. A text or a list stays in the image: its value is the part where it stands. It says `Said` and `layout` again, as
// `Field` has them: the type of `says` could not name those of a supertrait.
pub trait ReadField {
    type Value: Copy;

    ghost Said: { Type 0 };

    ghost layout: { Codec Said };

    ghost says: { List ℕ → Self.Value → Said };

    ghost Holds: { List ℕ → Self.Value → ℕ → Type 0 };

    // The field at `at`, and the place after it.
    fn read(img: &[u8], at: usize) -> Result<(Self::Value, usize), Fault>
        ensures { ReadsAs img.now layout.read (says img.now) (Holds img.now) at result };
}

impl ReadField for Word {
    type Value = u32;

    ghost Said = { ℕ };

    ghost layout = { word };

    ghost says = { λ img n. n };

    ghost Holds = { λ img n end. Unit {0} };

    #[tactic(auto, using(wire::proofs::Readers::times))]
    fn read(img: &[u8], at: usize) -> Result<(u32, usize), Fault> {
        let (number, next) = read_number(img, at, LAST_WORD)?;
        Ok((number as u32, next))
    }
}

impl ReadField for Inode {
    type Value = u64;

    ghost Said = { ℕ };

    ghost layout = { inode };

    ghost says = { λ img n. n };

    ghost Holds = { λ img n end. Unit {0} };

    fn read(img: &[u8], at: usize) -> Result<(u64, usize), Fault> {
        read_number(img, at, u64::MAX)
    }
}

impl ReadField for Size {
    type Value = u64;

    ghost Said = { ℕ };

    ghost layout = { size };

    ghost says = { λ img n. n };

    ghost Holds = { λ img n end. Unit {0} };

    fn read(img: &[u8], at: usize) -> Result<(u64, usize), Fault> {
        read_number(img, at, LAST_SIZE)
    }
}

impl ReadField for Moment {
    type Value = Time;

    ghost Said = { Time };

    ghost layout = { moment };

    ghost says = { λ img t. t };

    ghost Holds = { λ img t end. Unit {0} };

    fn read(img: &[u8], at: usize) -> Result<(Time, usize), Fault> {
        read_time(img, at)
    }
}

impl ReadField for Target {
    type Value = Part;

    ghost Said = { Text };

    ghost layout = { target };

    ghost says = { text_at };

    ghost Holds = { λ img t end. Inside img t };

    fn read(img: &[u8], at: usize) -> Result<(Part, usize), Fault> {
        read_text(img, at, 0, LAST_TARGET)
    }
}

impl ReadField for XattrValue {
    type Value = Part;

    ghost Said = { Text };

    ghost layout = { value };

    ghost says = { text_at };

    ghost Holds = { λ img t end. Inside img t };

    fn read(img: &[u8], at: usize) -> Result<(Part, usize), Fault> {
        read_text(img, at, 0, LAST_VALUE)
    }
}

impl ReadField for Changes {
    type Value = Part;

    ghost Said = { ChangesMeant };

    ghost layout = { changes };

    ghost says = { λ img l. list_at img U.Change l };

    ghost Holds = { λ img l end. Listed img U.Change l end };

    fn read(img: &[u8], at: usize) -> Result<(Part, usize), Fault> {
        read_names(img, at, Under::Change)
    }
}

// A field that is there if the bit is 1, and the place after it. The bit is a number, and the place in the image, as in `pass_if` (image).
pub fn read_if<F: ReadField>(
    img: &[u8],
    at: usize,
    bit: u64,
) -> Result<(Option<F::Value>, usize), Fault>
    requires { (bit ≤ 1) × (at ≤ length img.now) }
    ensures { ReadsAs img.now (opt-read F.layout.read bit) (option_map (F.says img.now)) (holds_if (F.Holds img.now)) at result }
{
    if bit == 0 {
        return Ok((None, at));
    }
    let (value, next) = F::read(img, at)?;
    Ok((Some(value), next))
}

// 0, or 1 and a field; and the place after it.
pub fn read_maybe<F: ReadField>(img: &[u8], at: usize) -> Result<(Option<F::Value>, usize), Fault>
    ensures { ReadsAs img.now (maybe_read F.layout.read) (option_map (F.says img.now)) (holds_if (F.Holds img.now)) at result }
{
    let (bit, next) = read_number(img, at, 1)?;
    read_if::<F>(img, next, bit)
}
