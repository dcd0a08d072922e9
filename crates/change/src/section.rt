// Where the sections of an image stand, once it is found usable.
ghost use Rattle.change.specs.Sections.{Opens, OpensInode};

use stack::stack::Stack;
use survey::refusal::Refusal;
use survey::store::{Sections, read_image};

// The one pass over the image that every call starts with: the sections, and the stack of one inode.
#[tactic(auto, using(crate::proofs::Sections::opens))]
pub fn open_inode(img: &[u8], ino: u64) -> Result<(Sections, Stack), Refusal>
    ensures { OpensInode img.now ino result }
{
    let survey = read_image(img, ino)?;
    let places = survey.stack;
    Ok((survey.sections, Stack { img, places }))
}

// For a call that needs no stack.
#[tactic(auto, using(crate::proofs::Sections::opens))]
pub fn open_sections(img: &[u8]) -> Result<Sections, Refusal>
    ensures { Opens img.now result }
{
    let (sections, _) = open_inode(img, 0)?;
    Ok(sections)
}
