// Rows lent to a listing, and read afterwards.
use crate::lend::lend;
use rows::listing::{Entry, list_directory, list_xattrs};
use script::line::{decimal, room, word};
use script::show;
use std::io;
use survey::refusal::Refusal;
use wire::part::Part;

// The rows lent, and how many of them a listing filled.
#[derive(Clone, Copy)]
pub struct Listed {
    pub rows: [Entry; 16],
    pub count: usize,
}

// The names of a directory, each with its inode.
pub fn list(rt: &impl Print, line: &[u8]) -> io::Result<()> {
    lend(
        rt,
        word(line, 3),
        |img| filled(img, line, list_directory),
        entries,
    )
}

pub fn entries(rt: &impl Print, img: &[u8], listed: Listed) -> io::Result<()> {
    show_rows(rt, img, listed, |rt, row| print!(rt; ":{}", row.inode))
}

// The names of the extended attributes.
pub fn names(rt: &impl Print, line: &[u8]) -> io::Result<()> {
    lend(
        rt,
        word(line, 3),
        |img| filled(img, line, list_xattrs),
        |rt, img, listed| show_rows(rt, img, listed, |_, _| Ok(())),
    )
}

// Lends rows to a listing, as many as the line says.
fn filled<L: Fn(&[u8], u64, &mut [Entry]) -> Result<Option<usize>, Refusal>>(
    img: &[u8],
    line: &[u8],
    listing: L,
) -> Result<Option<Listed>, Refusal>
    requires { L.IsAlwaysCallable listing }
{
    // `Entry` has no `Default`.
    let blank = Entry {
        start: 0,
        length: 0,
        inode: 0,
    };
    let mut rows = [blank; 16];
    let lent = room(word(line, 2), 16);
    let Some(count) = listing(img, decimal(word(line, 1)), &mut rows[..lent])? else {
        return Ok(None);
    };
    Ok(Some(Listed { rows, count }))
}

// How many rows were filled, then each: its name, and what is shown behind it.
fn show_rows<R: Print, B: Fn(&R, &Entry) -> io::Result<()>>(
    rt: &R,
    img: &[u8],
    listed: Listed,
    behind: B,
) -> io::Result<()>
    requires { B.IsAlwaysCallable behind }
{
    print!(rt; "{}", listed.count)?;
    for row in listed.rows.iter().take(listed.count) {
        let name = Part {
            start: row.start,
            length: row.length,
        };
        show::text(rt, b" ")?;
        show::word(rt, name.of(img))?;
        behind(rt, row)?;
    }
    Ok(())
}
