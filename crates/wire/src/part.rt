// A part of a slice.
ghost use Rattle.std.specs.Prelude.{◌-◌, ◌≡◌};
ghost use Rattle.wire.specs.Reading.{part, part_if};

// The `length` bytes of the image from `start` on.
#[derive(Clone, Copy, PartialEq, Eq)]
pub struct Part {
    pub start: usize,
    pub length: usize,
}

impl Part {
    // The empty part at the start.
    pub const EMPTY: Part = Part {
        start: 0,
        length: 0,
    };

    // The part from one place to another; the empty one at the first, if the second is before it.
    pub fn between(start: usize, end: usize) -> Part
        ensures { (result.start ≡ start) × (result.length ≡ end - start) }
    {
        let length = end.saturating_sub(start);
        Part { start, length }
    }

    // Its bytes; of a part that goes past the end, what there is of it.
    pub fn of(self, image: &[u8]) -> &[u8]
        ensures { result.now ≡ part image.now self.start self.length }
    {
        let rest = &image[self.start.min(image.len())..];
        &rest[..self.length.min(rest.len())]
    }
}

// The part of the image, if there is one; else its empty start.
pub fn part_if(image: &[u8], option: Option<Part>) -> &[u8]
    ensures { result.now ≡ part_if image.now option }
{
    match option {
        Some(part) => part.of(image),
        None => &image[..0],
    }
}
