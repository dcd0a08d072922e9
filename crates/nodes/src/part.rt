// Lists by name, which stay in the image.
ghost use Rattle.nodes.specs.Listed.{ReadsNames};

use image::name::{Under, pass_names};
use wire::fault::Fault;
use wire::part::Part;

// The list by name at `at`, its count included, and the place after it.
pub fn read_names(img: &[u8], at: usize, what: Under) -> Result<(Part, usize), Fault>
    ensures { ReadsNames img.now what at result }
{
    let end = pass_names(img, at, what)?;
    Ok((Part::between(at, end), end))
}
