// How a list in the image is made a source, and how the first row of a source is read.
ghost use Rattle.std.specs.Prelude.{◌≡◌, ◌≤◌, length};
ghost use Rattle.std.specs.Result.{result_ok};
ghost use Rattle.wire.specs.Reading.{Reads, meant};
ghost use Rattle.merge.specs.Sources.{chosen_read, given_if, HeadOf, ListOf};

use crate::source::Source;
use image::field::{Inode, LAST_WORD, XattrValue};
use image::name::{Under, read_name};
use image::rows::rows_at;
use nodes::field::{ReadField, read_maybe};
use wire::fault::Fault;
use wire::part::Part;

// What a name is given: in a list of entries an inode, and the value is empty; in a list of attributes a value, and the inode is 0, which is
// also what a C caller is shown. No enum: who reads a row knows which list it is of, and would have to say what to do in the other case too.
#[derive(Clone, Copy)]
pub struct Given {
    pub inode: u64,
    pub value: Part,
}

// The first row of a source: its name, and what the name is given, unless it is removed. The rows after it are at `next`.
#[derive(Clone, Copy)]
pub struct Head {
    pub name: Part,
    pub given: Option<Given>,
    pub next: usize,
}

// Reads what stands under a name: what the name is given, unless it is removed; and the place after it. Why this is a `match`, and why a
// clause says that the place is in the image: see `pass_under` (image).
fn read_given(img: &[u8], at: usize, what: Under) -> Result<(Option<Given>, usize), Fault>
    requires { at ≤ length img.now }
    ensures { Reads img.now (chosen_read what) at (meant (given_if img.now) result) }
{
    match what {
        Under::Nothing => Ok((None, at)),
        Under::Inode => {
            let (inode, next) = Inode::read(img, at)?;
            let given = Given {
                inode,
                value: Part::EMPTY,
            };
            Ok((Some(given), next))
        }
        Under::Value => {
            let (value, next) = XattrValue::read(img, at)?;
            Ok((Some(Given { inode: 0, value }), next))
        }
        Under::Change => {
            let (change, next) = read_maybe::<XattrValue>(img, at)?;
            let Some(value) = change else {
                return Ok((None, next));
            };
            Ok((Some(Given { inode: 0, value }), next))
        }
    }
}

// The first row of a source, if there is one.
pub fn head_of(img: &[u8], source: Source) -> Option<Head>
    ensures { HeadOf img.now source.what source.rows.count source.rows.first result }
{
    if source.rows.count == 0 {
        return None;
    }
    first_row(img, source).ok()
}

// The first row of a source that has one left.
fn first_row(img: &[u8], source: Source) -> Result<Head, Fault>
    requires { source.rows.count ≡ 0 → ⊥ }
    ensures { HeadOf img.now source.what source.rows.count source.rows.first (result_ok result) }
{
    let (name, named) = read_name(img, source.rows.first)?;
    let (given, next) = read_given(img, named, source.what)?;
    Ok(Head { name, given, next })
}

// The list at `at` as a source, with all its rows; with none, if the count isn't read.
pub fn source_at(img: &[u8], at: usize, what: Under) -> Source
    ensures { ListOf img.now what at result }
{
    let rows = rows_at(img, at, LAST_WORD);
    Source { rows, what }
}
