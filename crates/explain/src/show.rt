// The lines of an explanation.
ghost use Rattle.std.specs.Prelude.{◌<◌};

use crate::label::Label;
use image::kind::FileType;
use stack::file_type::{base_type, entry_type};
use stack::stack::Stack;
use std::io;
use survey::refusal::Refusal;
use trace::said::{Said, base_says, says_at};

// The lookup of a name in a directory, and the number of the layer that decides it: of record i it is i + 1, of the base 0.
#[derive(Clone, Copy)]
pub struct Lookup<'a> {
    pub stack: Stack<'a>,
    pub name: &'a [u8],
    pub decides: usize,
}

fn end_line(rt: &impl Print, decides: bool) -> io::Result<()> {
    if decides {
        print!(rt; " (decides)")?;
    }
    println!(rt; "")
}

pub fn write_question(rt: &impl Print, ino: u64, name: &[u8]) -> io::Result<()> {
    print!(rt; "inode {ino}, name ")?;
    rt.write_all(name)?;
    println!(rt; "")
}

pub fn write_answer(rt: &impl Print, answer: Result<Option<u64>, Refusal>) -> io::Result<()> {
    match answer {
        Ok(Some(inode)) => println!(rt; "answer: {inode}"),
        Ok(None) => println!(rt; "answer: none"),
        Err(refusal) => println!(rt; "{refusal}"),
    }
}

pub fn write_label(rt: &impl Print, label: &Label) -> io::Result<()> {
    match label.id {
        Some(id) => print!(rt; "batch {id}: "),
        None => print!(rt; "live: "),
    }
}

// The line of one record.
pub fn write_record(rt: &impl Print, lookup: &Lookup, i: usize) -> io::Result<()>
    requires { i < lookup.now.stack.places.count }
{
    let said = says_at(lookup.stack, i, lookup.name);
    match entry_type(lookup.stack.record(i)) {
        Some(file_type) => write_delta(rt, file_type, said)?,
        None => print!(rt; "tombstone")?,
    }
    end_line(rt, lookup.decides == i + 1)
}

// A directory delta that says that there is no such child removes it; other deltas have no entries.
fn write_delta(rt: &impl Print, file_type: FileType, said: Said) -> io::Result<()> {
    print!(rt; "{file_type} delta, ")?;
    match said {
        Said::Nothing => print!(rt; "does not name it"),
        Said::NoChild if file_type == FileType::Directory => print!(rt; "removes it"),
        Said::NoChild => print!(rt; "has no entries"),
        Said::Child(inode) => print!(rt; "adds it as {inode}"),
    }
}

// The line of the base.
pub fn write_base(rt: &impl Print, lookup: &Lookup) -> io::Result<()> {
    print!(rt; "base: ")?;
    let said = base_says(lookup.stack, lookup.name);
    match base_type(lookup.stack.base()) {
        Some(file_type) => write_node(rt, file_type, said)?,
        None => print!(rt; "no node")?,
    }
    end_line(rt, lookup.decides == 0)
}

fn write_node(rt: &impl Print, file_type: FileType, said: Said) -> io::Result<()> {
    match said {
        Said::Nothing => print!(rt; "{file_type}, does not have it"),
        Said::NoChild => print!(rt; "{file_type}, has no entries"),
        Said::Child(inode) => print!(rt; "{file_type}, has it as {inode}"),
    }
}
