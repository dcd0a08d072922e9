// Names given to a call.
ghost use Rattle.std.specs.Prelude.{◌≡◌};
ghost use Rattle.rules.specs.Asks.{bad_name};
ghost use Rattle.stack.specs.Named.{OpensNamed};

use crate::open::open_image;
use crate::stack::Stack;
use image::field::LAST_NAME;
use survey::refusal::Refusal;

// A name is from 1 to 255 bytes long.
pub fn bad_name(name: &[u8]) -> bool
    ensures { result ≡ bad_name name.now }
{
    name.is_empty() || LAST_NAME < name.len() as u64
}

// The image opened for a call that is given a name: refusal 3 comes after 1 and 2.
pub fn open_named<'a>(img: &'a [u8], ino: u64, name: &[u8]) -> Result<Stack<'a>, Refusal>
    ensures { OpensNamed img.now ino name.now result }
{
    let stack = open_image(img, ino)?;
    if bad_name(name) {
        return Err(Refusal::BadName);
    }
    Ok(stack)
}
