// Numbers: seven bits a byte, low group first, the high bit on all bytes but the last, in the shortest form. Every
// reader takes the bytes and a place, and answers the value and the place after it. No struct of both: each call would have to move it on, also
// where it fails.
ghost use Rattle.std.specs.Prelude.{◌<◌, ◌≤◌, length, ◌≡◌};
ghost use Rattle.wire.specs.Number.{number_bytes, number_read, number-rest, tenth};
ghost use Rattle.wire.specs.Reading.{Reads, Tenth, judged_number, last_group};
ghost use Rattle.wire.specs.Put.{Put};

use crate::fault::Fault;
use crate::put::put_byte;

// The weight of the tenth byte, which has room for one bit.
const TENTH: u64 = 0x8000_0000_0000_0000;

// The number at `at`, which may be at most `most`, and the place after it. Most numbers are one byte long.
pub fn read_number(s: &[u8], at: usize, most: u64) -> Result<(u64, usize), Fault>
    ensures { Reads s.now (number_read most) at result }
{
    let Some(byte) = s.get(at) else {
        return Err(Fault::Ended);
    };
    let first = *byte as u64;
    if first < 128 {
        return judged(first, most, at + 1);
    }
    long_number(s, at + 1, first - 128, most)
}

// A number from its second byte on, which is at `at`; its first group is `low`. By place, since a place is answered. The loop's end is no constant, so
// that the compiler leaves it a loop, and this is small enough to be compiled into every reader.
fn long_number(s: &[u8], at: usize, low: u64, most: u64) -> Result<(u64, usize), Fault>
    requires { (low < 128) × (at ≤ length s.now) }
    ensures { Reads s.now (number-rest 128 low most 8) at result }
{
    let mut sum = low;
    let mut weight: u64 = 128;
    let end = before_tenth(s, at);
    for i in at..end {
        let group = s[i] as u64;
        if group < 128 {
            return last_group(group, group * weight + sum, most, i + 1);
        }
        sum = (group - 128) * weight + sum;
        weight = weight * 128;
    }
    tenth_group(s, end, sum, most)
}

// The place of the tenth byte of a number whose second is at `at`, or the end of the bytes if that comes first. No `min`: with it the pass over an
// image takes two percent more instructions.
fn before_tenth(s: &[u8], at: usize) -> usize
    requires { at ≤ length s.now }
    ensures { Tenth s.now at result }
{
    if s.len() - at <= 8 {
        return s.len();
    }
    at + 8
}

// A number from its tenth byte on, which is at `at`; the groups before it are worth `sum`.
fn tenth_group(s: &[u8], at: usize, sum: u64, most: u64) -> Result<(u64, usize), Fault>
    requires { sum < tenth }
    ensures { Reads s.now (number-rest tenth sum most 0) at result }
{
    match s.get(at) {
        Some(1) => judged(TENTH + sum, most, at + 1),
        Some(_) => Err(Fault::Malformed),
        None => Err(Fault::Ended),
    }
}

// The answer where the last group of a number of two bytes or more makes it `value`.
fn last_group(group: u64, value: u64, most: u64, next: usize) -> Result<(u64, usize), Fault>
    ensures { result ≡ last_group group value most next }
{
    if group == 0 {
        return Err(Fault::Malformed);
    }
    judged(value, most, next)
}

// The answer where the number is `value`.
fn judged(value: u64, most: u64, next: usize) -> Result<(u64, usize), Fault>
    ensures { result ≡ judged_number value most next }
{
    if most < value {
        return Err(Fault::Malformed);
    }
    Ok((value, next))
}

// Writes `number` at `at`, and answers the place after it.
pub fn put_number(buf: &mut [u8], at: usize, number: u64) -> usize
    ensures { Put buf.old at (number_bytes number) result buf.new }
{
    let mut i = at;
    let mut rest = number;
    while 128 <= rest {
        i = put_byte(buf, i, (rest % 128 + 128) as u8);
        rest = rest / 128;
    }
    put_byte(buf, i, rest as u8)
}
