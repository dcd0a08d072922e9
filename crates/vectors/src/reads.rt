// The reads of an image's layers.
use crate::lend::lend;
use crate::list::{list, names};
use attrs::node::FileAttr;
use image::kind::FileType;
use layers::attr::attr;
use layers::layers::{exists, file_type, has_link, parent_dir_inode, read_link};
use lookup::child::lookup_child;
use script::line::{bytes, decimal, word};
use script::show;
use std::io;
use xattrs::xattr::{get_xattr, has_xattr};

// The answer of a line that asks for a read; of another line nothing. `link` and `xattr` read twice: by the two calls that are tested.
pub fn answer(rt: &impl Print, line: &[u8]) -> io::Result<()> {
    match word(line, 0) {
        b"exists" => lend(
            rt,
            word(line, 2),
            |img| Ok(Some(exists(img, ino(line))?)),
            yes_no,
        ),
        b"type" => lend(rt, word(line, 2), |img| file_type(img, ino(line)), letter),
        b"child" => child(rt, line),
        b"attr" => lend(rt, word(line, 2), |img| attr(img, ino(line)), attributes),
        b"list" => list(rt, line),
        b"link" => lend(
            rt,
            word(line, 2),
            |img| Ok(has_link(img, ino(line))?.then_some(())),
            |rt, img, _| text(rt, read_link(img, ino(line))),
        ),
        b"parent" => lend(
            rt,
            word(line, 2),
            |img| parent_dir_inode(img, ino(line)),
            inode,
        ),
        b"xattr" => xattr(rt, line),
        b"names" => names(rt, line),
        _ => Ok(()),
    }
}

// The inode that a line names; read where a call takes it, so that other lines, which may be long, are gone over no more than need be.
fn ino(line: &[u8]) -> u64 {
    decimal(word(line, 1))
}

fn child(rt: &impl Print, line: &[u8]) -> io::Result<()> {
    let mut name = [0u8; 512];
    let name = bytes(word(line, 2), &mut name);
    lend(
        rt,
        word(line, 3),
        |img| lookup_child(img, ino(line), name),
        inode,
    )
}

fn xattr(rt: &impl Print, line: &[u8]) -> io::Result<()> {
    let mut name = [0u8; 512];
    let name = bytes(word(line, 2), &mut name);
    lend(
        rt,
        word(line, 3),
        |img| Ok(has_xattr(img, ino(line), name)?.then_some(())),
        |rt, img, _| text(rt, get_xattr(img, ino(line), name)),
    )
}

fn yes_no(rt: &impl Print, _img: &[u8], found: bool) -> io::Result<()> {
    show::text(rt, if found { b"yes" } else { b"no" })
}

fn letter(rt: &impl Print, _img: &[u8], kind: FileType) -> io::Result<()> {
    show::text(rt, &[kind.letter()])
}

fn inode(rt: &impl Print, _img: &[u8], inode: u64) -> io::Result<()> {
    print!(rt; "inode {inode}")
}

fn attributes(rt: &impl Print, img: &[u8], shown: FileAttr) -> io::Result<()> {
    letter(rt, img, shown.file_type)?;
    print!(rt;
        " {:o} {} {} {}",
        shown.perm, shown.nlink, shown.uid, shown.gid
    )?;
    print!(rt; " {} {}", shown.rdev, shown.size)?;
    print!(rt; " {} {} {}", shown.atime, shown.mtime, shown.ctime)
}

fn text(rt: &impl Print, value: &[u8]) -> io::Result<()> {
    show::text(rt, b"text ")?;
    show::word(rt, value)
}
