// The rows of a list by name, one after the other.
ghost use Rattle.lookup.specs.Lists.{AreRows, AreRows-prop};

use image::name::Under;
use image::rows::Rows;

// The rows in an image that are left.
#[derive(Clone, Copy)]
pub struct NameRows<'a> {
    pub img: &'a [u8],
    pub what: Under,
    pub rows: Rows,
    ghost there: { AreRows img.now what rows.first rows.count } by { AreRows-prop img.now what rows.first rows.count },
}
