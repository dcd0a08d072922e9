// Times: seconds since 1970, which may be negative, then nanoseconds.
ghost use Rattle.std.specs.Prelude.{◌≡◌, Some};
ghost use Rattle.std.specs.Int.{w64};
ghost use Rattle.std.proofs.Common.{SFits};
ghost use Rattle.wire.specs.Time.{zigzag as zigzagged, unzigzag as unzigzagged, time as timeCodec};
ghost use Rattle.wire.specs.Reading.{Reads};
ghost use Rattle.wire.specs.Put.{Put};
ghost use Rattle.wire.specs.Printed.{time_text};

use crate::fault::Fault;
use crate::number::{put_number, read_number};
use std::fmt;

// The largest number of nanoseconds.
pub const LAST_NANO: u64 = 999_999_999;

#[derive(Clone, Copy, PartialEq, Eq)]
pub struct Time {
    pub seconds: i64,
    pub nanos: u32,
}

impl Time {
    // The start of 1970.
    pub const EPOCH: Time = Time {
        seconds: 0,
        nanos: 0,
    };
}

// Seconds and nanoseconds, a point between them.
impl fmt::Display for Time {
    ghost output = { λ time. Some (time_text time) };

    fn fmt<W: fmt::Write>(&self, f: &mut fmt::Formatter<W>) -> fmt::Result {
        write!(f, "{}.{}", self.seconds, self.nanos)
    }
}

// The time at `at`, and the place after it.
#[tactic(auto, using(crate::proofs::Readers::times), unfolding(crate::specs::Time::time))]
pub fn read_time(s: &[u8], at: usize) -> Result<(Time, usize), Fault>
    ensures { Reads s.now timeCodec.read at result }
{
    let (seconds, middle) = read_number(s, at, u64::MAX)?;
    let (nanos, next) = read_number(s, middle, LAST_NANO)?;
    let time = Time {
        seconds: unzigzag(seconds),
        nanos: nanos as u32,
    };
    Ok((time, next))
}

// The number that stands for a signed one. By hand, as its counterpart: the library has no such conversion.
fn zigzag(signed: i64) -> u64
    ensures { result ≡ zigzagged signed }
{
    if signed < 0 {
        ((-1 - signed) as u64) * 2 + 1
    } else {
        (signed as u64) * 2
    }
}

// The signed number that a number stands for.
fn unzigzag(number: u64) -> i64
    ensures { (result ≡ unzigzagged number) × SFits w64 result }
{
    let half = number / 2;
    if number % 2 == 0 {
        half as i64
    } else {
        -1 - (half as i64)
    }
}

// Writes the time at `at`, and answers the place after it.
pub fn put_time(buf: &mut [u8], at: usize, time: Time) -> usize
    ensures { Put buf.old at (timeCodec.write time) result buf.new }
{
    let next = put_number(buf, at, zigzag(time.seconds));
    put_number(buf, next, time.nanos as u64)
}
