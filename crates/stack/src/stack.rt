// The stack of one inode.
ghost use Rattle.stack.specs.Stacks.{Stacked, Stacked-prop};

use survey::batch::InodeLayerStack;

// An image, and the places in it of the inode's node and records.
#[derive(Clone, Copy)]
pub struct Stack<'a> {
    pub img: &'a [u8],
    pub places: InodeLayerStack,
    ghost stacked: { Stacked img.now places } by { Stacked-prop img.now places },
}
