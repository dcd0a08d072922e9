// Parts of an image, copied.
ghost use Rattle.wire.specs.Put.{Put};
ghost use Rattle.change.specs.Sections.{between};

use wire::part::Part;
use wire::put::put_part;

// Copies the image from `start` to `end`: two places and no `Part`, since each is found on its own.
pub fn put_between(buf: &mut [u8], at: usize, img: &[u8], start: usize, end: usize) -> usize
    ensures { Put buf.old at (between img.now start end) result buf.new }
{
    put_part(buf, at, img, Part::between(start, end))
}
