// The rows of a list, which stand after its count.
ghost use Rattle.image.specs.Rows.{ReadsRows, RowsAt};

use wire::fault::Fault;
use wire::number::read_number;

// `count` rows, the first at `first`. That the first is in the image is a clause where rows are read, as in `pass_under`: there may be none.
#[derive(Clone, Copy, Default)]
pub struct Rows {
    pub first: usize,
    pub count: u64,
}

// The rows of the list at `at`, its count first.
pub fn read_rows(img: &[u8], at: usize, most: u64) -> Result<Rows, Fault>
    ensures { ReadsRows img.now most at result }
{
    let (count, first) = read_number(img, at, most)?;
    Ok(Rows { first, count })
}

// The same; a list that can't be read has none.
#[tactic(auto, using(crate::proofs::Listed::rows_counted))]
pub fn rows_at(img: &[u8], at: usize, most: u64) -> Rows
    ensures { RowsAt img.now most at result }
{
    read_rows(img, at, most).unwrap_or_default()
}
