// Explains a lookup: for one inode and one name, what each layer of the image on standard input says, from the top, which layer decides, and
// the answer; or only `refused N`.
//
//     explain INODE NAME < IMAGE
#![tactic(auto)]

mod label;
mod show;

ghost use Rattle.std.specs.Prelude.{◌≡◌, IfOk};
ghost use Rattle.stack.specs.InStack.{StackOf};
ghost use Rattle.trace.specs.Said.{Decides};

use input::fill;
use label::{Label, label_layers};
use lookup::child::lookup_child;
use script::line::parsed;
use show::{Lookup, write_answer, write_base, write_label, write_question, write_record};
use stack::name::open_named;
use std::env::FillError;
use std::io;
use std::rt::Env;
use survey::batch::MOST_LAYERS;
use survey::refusal::Refusal;
use survey::store::MOST_BYTES;
use trace::said::deciding;

fn main(rt: HostRuntime) -> io::Result<()> {
    if !has_argument(&rt, 2) || has_argument(&rt, 3) {
        return complain(&rt, "two arguments are needed");
    }
    let mut digits = [0u8; 32];
    let length = rt.arg(1, &mut digits).unwrap_or(0);
    let number = read_decimal(&digits[..length]);
    match number {
        Some(inode) => explain_name(&rt, inode),
        None => complain(&rt, "INODE must be a decimal number below 2^64"),
    }
}

// Whether the program was given an argument of this number; of any length.
fn has_argument(rt: &impl Env, number: usize) -> bool {
    let found = rt.arg(number, &mut []);
    !matches!(found, Err(FillError::NotPresent))
}

fn complain(rt: &impl Eprint, what: &str) -> io::Result<()> {
    eprintln!(rt; "explain: {what}")?;
    eprintln!(rt; "usage: explain INODE NAME < IMAGE")?;
    eprintln!(rt;
        "writes what each layer of the image says of NAME in the directory INODE, from the top, and the answer"
    )
}

// The number that the digits make, if there are only digits, at least one, and 64 bits hold it. By itself `parsed` would take a sign.
fn read_decimal(text: &[u8]) -> Option<u64> {
    if text.iter().all(|byte| byte.is_ascii_digit()) {
        parsed(text)
    } else {
        None
    }
}

fn explain_name(rt: &HostRuntime, ino: u64) -> io::Result<()> {
    let mut name = [0u8; 4096];
    // of a name that is longer than 4,096 bytes the start is enough to refuse it
    let end = rt.arg(2, &mut name).unwrap_or(4096);
    explain_image(rt, ino, &name[..end])
}

fn explain_image(rt: &HostRuntime, ino: u64, name: &[u8]) -> io::Result<()> {
    let mut image = [0u8; MOST_BYTES + 1];
    let size = fill(&mut rt.stdin(), &mut image)?;
    explain(rt, &image[..size], ino, name)
}

fn explain(rt: &impl Print, img: &[u8], ino: u64, name: &[u8]) -> io::Result<()> {
    let (lookup, labels) = match open_lookup(img, ino, name) {
        Ok(opened) => opened,
        Err(refusal) => return println!(rt; "{refusal}"),
    };
    write_question(rt, ino, name)?;
    for label in labels.iter().rev().flatten() {
        write_label(rt, label)?;
        write_layer(rt, &lookup, label.place)?;
    }
    write_base(rt, &lookup)?;
    write_answer(rt, lookup_child(img, ino, name))
}

// The lookup, and the layers by their names: of the image, the inode and the name that were asked for.
fn open_lookup<'a>(
    img: &'a [u8],
    ino: u64,
    name: &'a [u8],
) -> Result<(Lookup<'a>, [Option<Label>; MOST_LAYERS]), Refusal>
    ensures stack { IfOk result (λ x. StackOf img.now ino x.0.stack) }
    ensures name { IfOk result (λ x. x.0.name.now ≡ name.now) }
    ensures decides { IfOk result (λ x. Decides x.0.stack.img.now x.0.stack.places x.0.name.now x.0.decides) }
{
    let stack = open_named(img, ino, name)?;
    let labels = label_layers(img, ino);
    let lookup = Lookup {
        stack,
        name,
        decides: deciding(stack, name),
    };
    Ok((lookup, labels))
}

// The record that stands at the layer's place, if it has one.
fn write_layer(rt: &impl Print, lookup: &Lookup, place: Option<usize>) -> io::Result<()> {
    let places = lookup.stack.places;
    let found = places.deltas[..places.count]
        .iter()
        .position(|record| Some(*record) == place);
    match found {
        Some(i) => write_record(rt, lookup, i),
        None => println!(rt; "no record"),
    }
}
