// The words of a line.
ghost use Rattle.std.specs.Prelude.{◌<◌, ◌≤◌, length};

use std::str::FromStr;
use std::{io, str};

// The most bytes of a list; a longer one is cut.
pub const MOST_LIST: usize = 262_144;

// Writes each line of a list again, with its answer behind it.
pub fn replay<R: Print, A: Fn(&R, &[u8]) -> io::Result<()>>(
    rt: &R,
    list: &[u8],
    answer: A,
) -> io::Result<()>
    requires { A.IsAlwaysCallable answer }
{
    for line in list.split_inclusive(|byte| *byte == b'\n') {
        let line = line.strip_suffix(b"\n").unwrap_or(line);
        rt.write_all(line)?;
        answer(rt, line)?;
        rt.write_all(b"\n")?;
    }
    Ok(())
}

// The word of this number, counted from 0; none is the empty word.
pub fn word(line: &[u8], number: usize) -> &[u8] {
    line.split(|byte| *byte == b' ').nth(number).unwrap_or(&[])
}

// The value that the word writes, if it writes one.
pub fn parsed<T: FromStr<Err: Drop>>(word: &[u8]) -> Option<T> {
    str::from_utf8(word).ok()?.parse().ok()
}

// The decimal number that the word writes, whatever its bytes: each counts as `digit` says, so that the empty word is 0; u64::MAX where it is larger.
pub fn decimal(word: &[u8]) -> u64 {
    word.iter()
        .try_fold(0u64, |value, letter| {
            value
                .checked_mul(10)?
                .checked_add(digit(*letter) as u64 % 10)
        })
        .unwrap_or(u64::MAX)
}

// As many as the word says, or as there are to lend.
pub fn room(word: &[u8], most: usize) -> usize
    ensures { result ≤ most }
{
    decimal(word).min(most as u64) as usize
}

// Puts the bytes that the hexadecimal word stands for at the start of `out`, and answers this start.
pub fn bytes<'a>(word: &[u8], out: &'a mut [u8]) -> &'a [u8]
    ensures { length result.now ≤ length out.old }
{
    let (pairs, _) = word.as_chunks::<2>();
    for ([high, low], byte) in pairs.iter().zip(out.iter_mut()) {
        *byte = digit(*high) % 16 * 16 + digit(*low) % 16;
    }
    &out[..pairs.len().min(out.len())]
}

// What a digit, or a capital letter from A on, stands for. By hand: lists may have any bytes, and each has a value here.
fn digit(letter: u8) -> u8 {
    match letter {
        0..b'0' => 0,
        b'0'..=b'9' => letter - b'0',
        b':'..b'A' => 0,
        b'A'..=255 => letter - b'A' + 10,
    }
}
