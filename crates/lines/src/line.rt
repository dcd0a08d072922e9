// A listing's heading, the line of an inode, and the line of a refusal.
ghost use Rattle.std.specs.Prelude.{[], ◌∷◌, ◌++◌};
ghost use Rattle.wire.specs.Put.{Put};
ghost use Rattle.attrs.specs.Meant.{attr_meant};
ghost use Rattle.survey.specs.Verdict.{number_of};
ghost use Rattle.lines.specs.Digits.{decimal, octal};
ghost use Rattle.lines.specs.Lines.{heading, line, refusal};

use crate::digit::{put_decimal, put_octal};
use attrs::node::FileAttr;
use survey::refusal::Refusal;
use wire::put::{put_byte, put_bytes};

// Writes the heading.
pub fn put_heading(buf: &mut [u8], at: usize) -> usize
    ensures { Put buf.old at heading result buf.new }
{
    put_bytes(buf, at, b"INODE T MODE LINKS SIZE\n")
}

// Writes a number in decimal, and a byte behind it.
fn put_field(buf: &mut [u8], at: usize, number: u64, end: u8) -> usize
    ensures { Put buf.old at (decimal number ++ (end ∷ [])) result buf.new }
{
    let next = put_decimal(buf, at, number);
    put_byte(buf, next, end)
}

// Writes the letter and the permission, a space behind each.
fn put_mode(buf: &mut [u8], at: usize, letter: u8, perm: u64) -> usize
    ensures { Put buf.old at ((letter ∷ []) ++ ((0x20 ∷ []) ++ (octal perm ++ (0x20 ∷ [])))) result buf.new }
{
    let lettered = put_byte(buf, at, letter);
    let spaced = put_byte(buf, lettered, b' ');
    let moded = put_octal(buf, spaced, perm);
    put_byte(buf, moded, b' ')
}

// Writes the line of an inode's attributes.
pub fn put_line(buf: &mut [u8], at: usize, attr: FileAttr) -> usize
    ensures { Put buf.old at (line (attr_meant attr)) result buf.new }
{
    let letter = attr.file_type.letter();
    let named = put_field(buf, at, attr.ino, b' ');
    let moded = put_mode(buf, named, letter, attr.perm as u64);
    let linked = put_field(buf, moded, attr.nlink as u64, b' ');
    put_field(buf, linked, attr.size, b'\n')
}

// Writes the line of a refusal.
pub fn put_refusal(buf: &mut [u8], at: usize, refused: Refusal) -> usize
    ensures { Put buf.old at (refusal (number_of refused)) result buf.new }
{
    put_refusal_number(buf, at, refused.number())
}

// The same of a refusal's number, whatever it is.
pub fn put_refusal_number(buf: &mut [u8], at: usize, number: u32) -> usize
    ensures { Put buf.old at (refusal number) result buf.new }
{
    let next = put_bytes(buf, at, b"refused ");
    put_field(buf, next, number as u64, b'\n')
}
