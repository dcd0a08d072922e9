// The listing program: reads an image from standard input and writes a heading and a line for each inode of its snapshot, rising; or only
// `refused N`. What is written is `listing_bytes` of crates/lines (`whole`, crates/lines/proofs/Whole.antt). The buffers are 65,537 bytes for the
// image, so that a longer one is seen to be too long, 65,536 for its snapshot, and 128 for a line.
#![tactic(auto)]

ghost use Rattle.lines.specs.Rows.{HasRows};

use input::fill;
use lines::inodes::BaseRows;
use lines::line::{put_heading, put_line, put_refusal};
use lines::rows::open_listing;
use std::io;
use survey::refusal::Refusal;
use survey::store::MOST_BYTES;

fn main(rt: HostRuntime) -> io::Result<()> {
    let mut image = [0u8; MOST_BYTES + 1];
    let mut target = [0u8; MOST_BYTES];
    let length = fill(&mut rt.stdin(), &mut image)?;
    list(&rt, &image[..length], &mut target)
}

fn list(rt: &impl Print, img: &[u8], target: &mut [u8]) -> io::Result<()> {
    match open_listing(img, target) {
        Ok(rows) => write_lines(rt, BaseRows { img: target, rows }),
        Err(refusal) => write_refusal(rt, refusal),
    }
}

fn write_refusal(rt: &impl Print, refusal: Refusal) -> io::Result<()> {
    let mut line = [0u8; 128];
    let end = put_refusal(&mut line, 0, refusal);
    rt.write_all(&line[..end])
}

// The heading and the lines. Stops at the first write that fails. The rows stand in the image that they are read from: the snapshot, and not the
// image that it was made of.
fn write_lines(rt: &impl Print, rows: BaseRows) -> io::Result<()>
    requires { HasRows rows.img.now rows.rows }
{
    let mut line = [0u8; 128];
    let end = put_heading(&mut line, 0);
    rt.write_all(&line[..end])?;
    for attr in rows {
        let end = put_line(&mut line, 0, attr);
        rt.write_all(&line[..end])?;
    }
    Ok(())
}
