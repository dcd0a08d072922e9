// The texts of an inode, each as a part of the image: a link's text, an attribute's value.
ghost use Rattle.rules.specs.Initial.{usual};
ghost use Rattle.rules.specs.ReadCalls.{read_link, get_xattr};
ghost use Rattle.ffi.specs.Replies.{TextReplies};

use crate::reply::{TextReply, text_reply};
use layers::layers::link_of;
use xattrs::xattr::value_of;

// The text of a link.
#[unsafe(no_mangle)]
pub extern "C" fn appendfs_read_link(img: &[u8], ino: u64) -> TextReply
    ensures { TextReplies img.now (read_link usual img.now ino) result }
{
    text_reply(img, link_of(img, ino))
}

// The value of an extended attribute.
#[unsafe(no_mangle)]
pub extern "C" fn appendfs_get_xattr(img: &[u8], ino: u64, name: &[u8]) -> TextReply
    ensures { TextReplies img.now (get_xattr usual img.now ino name.now) result }
{
    text_reply(img, value_of(img, ino, name))
}
