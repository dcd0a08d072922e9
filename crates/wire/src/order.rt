// The order of texts: byte by byte, and a text that is the beginning of another comes first.
ghost use Rattle.std.specs.Prelude.{◌≡◌};
ghost use Rattle.wire.specs.Orders.{by_bytes};
ghost use Rattle.wire.specs.Reading.{part as part_of};

use crate::part::Part;
use std::cmp::Ordering;

// A function of its own, so that the contract speaks of this order and not of the library's.
pub fn compare(a: &[u8], b: &[u8]) -> Ordering
    ensures { result ≡ by_bytes.cmp a.now b.now }
{
    a.cmp(&b)
}

// The order of a part of the image and a name, compared where the part stands.
pub fn compare_part(image: &[u8], part: Part, name: &[u8]) -> Ordering
    ensures { result ≡ by_bytes.cmp (part_of image.now part.start part.length) name.now }
{
    compare(part.of(image), name)
}
