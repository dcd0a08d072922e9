// A source: a list by name in the image, and which rows of it are left.
use image::name::Under;
use image::rows::Rows;

// The rows of a list by name that are left, and what stands under each name.
#[derive(Clone, Copy)]
pub struct Source {
    pub rows: Rows,
    pub what: Under,
}
