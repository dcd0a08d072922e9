// Looking for a name in a list by name, where the list stands.
ghost use Rattle.std.specs.Iterator.{at_most};
ghost use Rattle.lookup.specs.Search.{ListRows, Gives, Finds};

use crate::list::NameList;
use crate::rows::NameRows;
use image::field::LAST_WORD;
use image::name::{RowRead, read_row};
use image::rows::rows_at;
use std::cmp::Ordering;
use wire::order::compare_part;

// Each row with its place.
impl Iterator for NameRows<'_> {
    type Item = (usize, RowRead);

    ghost next_gives = { Gives };

    ghost remaining = { λ rows. at_most rows.rows.count };

    fn next(&mut self) -> Option<(usize, RowRead)> {
        if self.rows.count == 0 {
            return None;
        }
        let place = self.rows.first;
        let row = read_row(self.img, place, self.what).unwrap();
        self.rows.first = row.next;
        self.rows.count -= 1;
        Some((place, row))
    }
}

impl<'a> NameList<'a> {
    // Its rows, which stand after its count.
    pub fn rows(self) -> NameRows<'a>
        ensures { ListRows self.entry result }
    {
        NameRows {
            img: self.img,
            what: self.what,
            rows: rows_at(self.img, self.place.start, LAST_WORD),
        }
    }

    // The place of what stands under a name. Names rise, so one that is greater ends the search. Not by `cut_at` (change), which stands above this
    // crate, and answers more than a place.
    pub fn find(self, name: &[u8]) -> Option<usize>
        ensures { Finds self.entry name.now result }
    {
        for (_, row) in self.rows() {
            match compare_part(self.img, row.name, name) {
                Ordering::Less => {}
                Ordering::Equal => return Some(row.under),
                Ordering::Greater => return None,
            }
        }
        None
    }
}
