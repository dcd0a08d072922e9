// What the exported calls answer. In each, `refusal` is the number of the refusal, 0 for none. They are laid out for C, which has no `Option`
// and no `Result`.
ghost use Rattle.std.specs.Prelude.{◌≡◌};
ghost use Rattle.stack.specs.Stacks.{type_of};
ghost use Rattle.layers.specs.Attrs.{attr_if};
ghost use Rattle.nodes.specs.Options.{text_of as textMeant};
ghost use Rattle.image.specs.FileTypes.{kind_meant};
ghost use Rattle.attrs.specs.Meant.{attr_meant};
ghost use Rattle.survey.specs.Verdict.{numbered};
ghost use Rattle.layers.specs.Answered.{answered};
ghost use Rattle.ffi.specs.Replies.{yes_no_reply, type_reply, inode_reply, time_out, attr_out, attr_reply, TextReplies, BlankText, parts_of, reply_of};

use attrs::node::FileAttr;
use image::kind::FileType;
use survey::refusal::Refusal;
use wire::part::Part;
use wire::time::Time;

#[repr(C)]
#[derive(Clone, Copy)]
pub struct YesNoReply {
    pub refusal: u32,
    pub yes: bool,
}

// `kind` is from 0 to 6.
#[repr(C)]
#[derive(Clone, Copy)]
pub struct TypeReply {
    pub refusal: u32,
    pub found: bool,
    pub kind: u32,
}

#[repr(C)]
#[derive(Clone, Copy)]
pub struct InodeReply {
    pub refusal: u32,
    pub found: bool,
    pub inode: u64,
}

// A time as C has it; wire's `Time` knows no C.
#[repr(C)]
#[derive(Clone, Copy, Default)]
pub struct Timestamp {
    pub seconds: i64,
    pub nanos: u32,
}

#[repr(C)]
#[derive(Clone, Copy, Default)]
pub struct Attr {
    pub ino: u64,
    pub kind: u32,
    pub perm: u32,
    pub nlink: u32,
    pub uid: u32,
    pub gid: u32,
    pub rdev: u32,
    pub size: u64,
    pub atime: Timestamp,
    pub mtime: Timestamp,
    pub ctime: Timestamp,
}

#[repr(C)]
#[derive(Clone, Copy)]
pub struct AttrReply {
    pub refusal: u32,
    pub found: bool,
    pub attr: Attr,
}

// The text is the part of the image from `start` on, of `length` bytes: two fields, as C has them.
#[repr(C)]
#[derive(Clone, Copy)]
pub struct TextReply {
    pub refusal: u32,
    pub found: bool,
    pub start: usize,
    pub length: usize,
}

// `length` is that of the new image.
#[repr(C)]
#[derive(Clone, Copy)]
pub struct ChangeReply {
    pub refusal: u32,
    pub length: usize,
}

impl From<Result<bool, Refusal>> for YesNoReply {
    ghost from_gives = { λ answer reply. reply ≡ yes_no_reply (answered (λ yes. yes) answer) };

    fn from(answer: Result<bool, Refusal>) -> YesNoReply {
        match answer {
            Ok(yes) => YesNoReply { refusal: 0, yes },
            Err(refusal) => YesNoReply {
                refusal: refusal.number(),
                yes: false,
            },
        }
    }
}

// The number of the refusal, 0 for none, and what there is.
// Only of an `Option`: over any `T: Default` the contract could name no value, since `default` promises `is_default` of it.
pub(crate) fn parts<T>(answer: Result<Option<T>, Refusal>) -> (u32, Option<T>)
    ensures { result ≡ parts_of answer }
{
    match answer {
        Ok(found) => (0, found),
        Err(refusal) => (refusal.number(), None),
    }
}

impl From<Result<Option<FileType>, Refusal>> for TypeReply {
    ghost from_gives = { λ answer reply. reply ≡ type_reply (answered type_of answer) };

    fn from(answer: Result<Option<FileType>, Refusal>) -> TypeReply {
        let (refusal, kind) = parts(answer);
        TypeReply {
            refusal,
            found: kind.is_some(),
            kind: kind.map_or(0, |kind| kind as u32),
        }
    }
}

impl From<Result<Option<u64>, Refusal>> for InodeReply {
    ghost from_gives = { λ answer reply. reply ≡ inode_reply (answered (λ found. found) answer) };

    fn from(answer: Result<Option<u64>, Refusal>) -> InodeReply {
        let (refusal, inode) = parts(answer);
        InodeReply {
            refusal,
            found: inode.is_some(),
            inode: inode.unwrap_or(0),
        }
    }
}

impl From<Time> for Timestamp {
    ghost from_gives = { λ time shown. shown ≡ time_out time };

    fn from(time: Time) -> Timestamp {
        Timestamp {
            seconds: time.seconds,
            nanos: time.nanos,
        }
    }
}

impl From<FileAttr> for Attr {
    ghost from_gives = { λ attr shown. shown ≡ attr_out (attr_meant attr) };

    fn from(attr: FileAttr) -> Attr {
        Attr {
            ino: attr.ino,
            kind: attr.file_type as u32,
            perm: attr.perm,
            nlink: attr.nlink,
            uid: attr.uid,
            gid: attr.gid,
            rdev: attr.rdev,
            size: attr.size,
            atime: Timestamp::from(attr.atime),
            mtime: Timestamp::from(attr.mtime),
            ctime: Timestamp::from(attr.ctime),
        }
    }
}

// Without attributes all their fields are 0.
impl From<Result<Option<FileAttr>, Refusal>> for AttrReply {
    ghost from_gives = { λ answer reply. reply ≡ attr_reply (answered attr_if answer) };

    fn from(answer: Result<Option<FileAttr>, Refusal>) -> AttrReply {
        let (refusal, attr) = parts(answer);
        AttrReply {
            refusal,
            found: attr.is_some(),
            attr: attr.map(Attr::from).unwrap_or_default(),
        }
    }
}

// An empty text is answered as the part at 0, as no text is. No `From`, since it takes the image.
pub fn text_reply(img: &[u8], answer: Result<Option<Part>, Refusal>) -> TextReply
    ensures replies { TextReplies img.now (answered (textMeant img.now) answer) result }
    ensures blank { BlankText answer result }
{
    let (refusal, text) = parts(answer);
    let place = text.unwrap_or(Part::EMPTY);
    let length = place.of(img).len();
    TextReply {
        refusal,
        found: text.is_some(),
        start: if length == 0 { 0 } else { place.start },
        length,
    }
}

// The length of a refusal is 0.
impl From<Result<usize, Refusal>> for ChangeReply {
    ghost from_gives = { λ answer reply. reply ≡ reply_of (numbered answer) };

    fn from(answer: Result<usize, Refusal>) -> ChangeReply {
        match answer {
            Ok(length) => ChangeReply { refusal: 0, length },
            Err(refusal) => ChangeReply {
                refusal: refusal.number(),
                length: 0,
            },
        }
    }
}
