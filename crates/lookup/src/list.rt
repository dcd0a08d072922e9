// A list by name.
ghost use Rattle.lookup.specs.Lists.{IsList, IsList-prop};

use image::name::Under;
use wire::part::Part;

// A list by name in an image: where it stands, and what stands under its names.
#[derive(Clone, Copy)]
pub struct NameList<'a> {
    pub img: &'a [u8],
    pub place: Part,
    pub what: Under,
    ghost listed: { IsList img.now what place } by { IsList-prop img.now what place },
}
