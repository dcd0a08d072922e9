// The answer of one line of the list.
use crate::lend::lend;
use crate::reads;
use script::line::{bytes, decimal, word};
use script::show;
use std::cmp::Ordering;
use std::io;
use survey::batch::InodeLayerStack;
use survey::store::read_image;
use wire::fault::Fault;
use wire::number::{put_number, read_number};
use wire::order::compare_part;
use wire::part::Part;
use wire::text::{put_text, read_text};
use wire::time::{put_time, read_time};

pub fn answer(rt: &impl Print, line: &[u8]) -> io::Result<()> {
    match word(line, 0) {
        b"number" => number(rt, line),
        b"text" => text(rt, line),
        b"time" => time(rt, line),
        b"compare" => order(rt, line),
        b"image" => image(rt, line),
        _ => reads::answer(rt, line),
    }
}

fn number(rt: &impl Print, line: &[u8]) -> io::Result<()> {
    let most = decimal(word(line, 1));
    value(
        rt,
        word(line, 2),
        |input| read_number(input, 0, most),
        |rt, _, number, output| {
            print!(rt; "{number}")?;
            Ok(put_number(output, 0, number))
        },
    )
}

fn text(rt: &impl Print, line: &[u8]) -> io::Result<()> {
    let least = decimal(word(line, 1));
    let most = decimal(word(line, 2));
    value(
        rt,
        word(line, 3),
        |input| read_text(input, 0, least, most),
        |rt, input, text, output| {
            print!(rt; "{} {}", text.start, text.length)?;
            Ok(put_text(output, 0, text.of(input)))
        },
    )
}

fn time(rt: &impl Print, line: &[u8]) -> io::Result<()> {
    value(
        rt,
        word(line, 1),
        |input| read_time(input, 0),
        |rt, _, time, output| {
            print!(rt; "{} {}", time.seconds, time.nanos)?;
            Ok(put_time(output, 0, time))
        },
    )
}

// Reads a value from the bytes of the word. `shown` writes it, and puts it at the output's start; it answers how many bytes it put there.
fn value<
    R: Print,
    T: Drop,
    F: Fn(&[u8]) -> Result<(T, usize), Fault>,
    S: Fn(&R, &[u8], T, &mut [u8]) -> io::Result<usize>,
>(rt: &R, word: &[u8], read: F, shown: S) -> io::Result<()>
    requires reads { F.IsAlwaysCallable read }
    requires shows { S.IsAlwaysCallable shown }
{
    show::text(rt, b" = ")?;
    let mut input = [0u8; 512];
    let mut output = [0u8; 512];
    let given = bytes(word, &mut input);
    match read(given) {
        Ok((value, end)) => {
            let length = shown(rt, given, value, &mut output)?;
            // cut at the end: the closure promises no bound
            show::written(rt, end, Part::between(0, length).of(&output))
        }
        Err(why) => print!(rt; "{why}"),
    }
}

fn order(rt: &impl Print, line: &[u8]) -> io::Result<()> {
    let mut image = [0u8; 512];
    let mut name = [0u8; 512];
    let part = Part {
        start: decimal(word(line, 2)) as usize,
        length: decimal(word(line, 3)) as usize,
    };
    let image = bytes(word(line, 1), &mut image);
    match compare_part(image, part, bytes(word(line, 4), &mut name)) {
        Ordering::Less => show::text(rt, b" = less"),
        Ordering::Equal => show::text(rt, b" = equal"),
        Ordering::Greater => show::text(rt, b" = greater"),
    }
}

fn image(rt: &impl Print, line: &[u8]) -> io::Result<()> {
    let ino = decimal(word(line, 1));
    lend(
        rt,
        word(line, 2),
        |img| Ok(Some(read_image(img, ino)?.stack)),
        stack,
    )
}

// The place of the node, then those of the records.
fn stack(rt: &impl Print, _img: &[u8], found: InodeLayerStack) -> io::Result<()> {
    match found.base {
        Some(place) => print!(rt; "{place}")?,
        None => print!(rt; "-")?,
    }
    let deltas = found.deltas;
    for delta in deltas.iter().take(found.count) {
        print!(rt; " {delta}")?;
    }
    Ok(())
}
