// Opening an image that may be used.
ghost use Rattle.stack.specs.InStack.{Opens};

use crate::stack::Stack;
use survey::refusal::Refusal;
use survey::store::read_image;

// The one pass over the image that every call starts with.
pub fn open_image(img: &[u8], ino: u64) -> Result<Stack, Refusal>
    ensures { Opens img.now ino result }
{
    let survey = read_image(img, ino)?;
    Ok(Stack {
        img,
        places: survey.stack,
    })
}
