// The calls that fill lent rows.
ghost use Rattle.std.specs.Prelude.{◌≡◌, length};
ghost use Rattle.rules.specs.Initial.{usual};
ghost use Rattle.rules.specs.ReadCalls.{list_directory, list_xattrs};
ghost use Rattle.ffi.specs.Replies.{count_reply, RowsReplies};

use crate::reply::parts;
use rows::listing::{Entry, list_directory, list_xattrs};
use survey::refusal::Refusal;

// `count` is that of the rows filled. Laid out for C, as the replies of `reply`.
#[repr(C)]
#[derive(Clone, Copy)]
pub struct RowsReply {
    pub refusal: u32,
    pub found: bool,
    pub count: usize,
}

impl From<Result<Option<usize>, Refusal>> for RowsReply {
    ghost from_gives = { λ answer reply. reply ≡ count_reply answer };

    fn from(answer: Result<Option<usize>, Refusal>) -> RowsReply {
        let (refusal, count) = parts(answer);
        RowsReply {
            refusal,
            found: count.is_some(),
            count: count.unwrap_or(0),
        }
    }
}

// The names of a directory, rising by bytes.
#[unsafe(no_mangle)]
pub extern "C" fn appendfs_list_directory(img: &[u8], ino: u64, rows: &mut [Entry]) -> RowsReply
    ensures { RowsReplies (list_directory usual img.now ino (length rows.old)) rows.old rows.new result }
{
    RowsReply::from(list_directory(img, ino, rows))
}

// The names of the extended attributes, rising by bytes.
#[unsafe(no_mangle)]
pub extern "C" fn appendfs_list_xattrs(img: &[u8], ino: u64, rows: &mut [Entry]) -> RowsReply
    ensures { RowsReplies (list_xattrs usual img.now ino (length rows.old)) rows.old rows.new result }
{
    RowsReply::from(list_xattrs(img, ino, rows))
}
