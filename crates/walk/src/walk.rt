// A walk over the base and the layers of an image.
ghost use Rattle.walk.specs.Ready.{Ready, Ready-prop};

use crate::run::Runs;
use stack::stack::Stack;

// An image, and the runs of its base and layers.
#[derive(Clone, Copy)]
pub struct Walk<'a> {
    pub img: &'a [u8],
    pub runs: Runs,
    ghost ready: { Ready img.now runs } by { Ready-prop img.now runs },
}

// The least inode and its stack, whether the topmost layer has it, and where its base node ends. Where there is no layer, the base is the topmost.
#[derive(Clone, Copy)]
pub struct Step<'a> {
    pub inode: u64,
    // A bool: who reads it asks only whether the topmost layer has the inode; the place is the stack's.
    pub top: bool,
    pub stack: Stack<'a>,
    pub end: Option<usize>,
}
