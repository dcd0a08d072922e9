// Where a rising list is cut, to change what stands under one key.
ghost use Rattle.std.specs.Prelude.{◌<◌, ◌≤◌, ◌≡◌, ℕ, length};
ghost use Rattle.wire.specs.Codec.{Codec};
ghost use Rattle.wire.specs.Number.{edge};
ghost use Rattle.wire.specs.Order.{Order};
ghost use Rattle.wire.specs.Orders.{by_number};
ghost use Rattle.wire.specs.Reading.{Reads};
ghost use Rattle.image.specs.Meaning.{Record};
ghost use Rattle.image.specs.FieldLayout.{inode};
ghost use Rattle.image.specs.RecordLayout.{layer_record};
ghost use Rattle.image.specs.Places.{Ends};
ghost use Rattle.change.specs.Cuts.{compared, Cuts, CutsList, count_after};

use image::field::{Inode, LAST_WORD};
use image::rows::{Rows, rows_at};
use nodes::field::ReadField;
use passes::record::pass_record;
use std::cmp::Ordering;
use wire::fault::Fault;

// Bytes that give way to others, or go: two places and no `Part`, as `put_between` takes them.
#[derive(Clone, Copy)]
pub struct Gap {
    pub start: usize,
    pub end: usize,
}

// The rows of a list, cut at a key. The gap is the key's row, and what stands under it is at `place`; if it has none, the gap is empty. What
// follows is from the gap's end on.
#[derive(Clone, Copy)]
pub struct Cut {
    pub rows: Rows,
    pub gap: Gap,
    pub place: Option<usize>,
}

impl Cut {
    // The cut of a list that isn't there.
    pub const NOWHERE: Cut = Cut {
        rows: Rows { first: 0, count: 0 },
        gap: Gap { start: 0, end: 0 },
        place: None,
    };

    // How many rows there are afterwards, where the key has one (`there`) or none. A clause, and no fact of `Cut`, as in `replaced` (overlay).
    pub fn count_after(self, there: bool) -> u64
        requires { self.rows.count < edge }
        ensures { result ≡ count_after self.rows.count self.place there }
    {
        match (self.place, there) {
            (Some(_), false) => self.rows.count.saturating_sub(1),
            (None, true) => self.rows.count + 1,
            _ => self.rows.count,
        }
    }
}

// A row that is looked for in a rising list, by its key.
pub trait Sought {
    ghost Key: { Type 0 };

    ghost Value: { Self → Type 0 };

    // The list's order, how its keys are written, and what stands under them.
    ghost order: { Order Key };

    ghost key: { Codec Key };

    ghost value: { (s : Self) → Codec (Value s) };

    // The key that is looked for.
    ghost wanted: { Self → Key };

    // How the key at `at` stands to the one looked for, and the place after it.
    fn compare(&self, img: &[u8], at: usize) -> Result<(Ordering, usize), Fault>
        ensures { Reads img.now (compared order key (wanted self.now)) at result };

    // Passes what stands under a key. The place is in the image, as in `pass_under` (image).
    fn pass(&self, img: &[u8], at: usize) -> Result<usize, Fault>
        requires { at ≤ length img.now }
        ensures { Ends img.now (value self.now).read at result };
}

// The record of an inode, in a layer.
#[derive(Clone, Copy)]
pub struct RecordOf {
    pub ino: u64,
}

impl Sought for RecordOf {
    ghost Key = { ℕ };

    ghost Value = { λ s. Record };

    ghost order = { by_number };

    ghost key = { inode };

    ghost value = { λ s. layer_record };

    ghost wanted = { λ s. s.ino };

    fn compare(&self, img: &[u8], at: usize) -> Result<(Ordering, usize), Fault> {
        let (inode, next) = Inode::read(img, at)?;
        Ok((inode.cmp(&self.ino), next))
    }

    fn pass(&self, img: &[u8], at: usize) -> Result<usize, Fault> {
        pass_record(img, at)
    }
}

// The list at `at`, its count first, cut at the row that is looked for.
pub fn cut_at<S: Sought>(img: &[u8], at: usize, sought: &S) -> Cut
    ensures { CutsList S.order S.key (S.value sought.now) img.now at (S.wanted sought.now) result }
{
    let rows = rows_at(img, at, LAST_WORD);
    cut_rows(img, rows, sought)
}

// The same of rows without their count.
fn cut_rows<S: Sought>(img: &[u8], rows: Rows, sought: &S) -> Cut
    ensures { Cuts S.order S.key (S.value sought.now) img.now rows.first rows.count (S.wanted sought.now) result }
{
    let mut row = rows.first;
    for _ in 0..rows.count {
        let Ok((order, place)) = sought.compare(img, row) else {
            break;
        };
        if order.is_gt() {
            break;
        }
        let Ok(after) = sought.pass(img, place) else {
            break;
        };
        if order.is_eq() {
            return Cut {
                rows,
                gap: Gap {
                    start: row,
                    end: after,
                },
                place: Some(place),
            };
        }
        row = after;
    }
    Cut {
        rows,
        gap: Gap {
            start: row,
            end: row,
        },
        place: None,
    }
}
