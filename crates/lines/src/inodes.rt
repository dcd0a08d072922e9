// The rows of a base.
use image::rows::Rows;

// The rows that are left of the base of an image.
#[derive(Clone, Copy)]
pub struct BaseRows<'a> {
    pub img: &'a [u8],
    pub rows: Rows,
}
