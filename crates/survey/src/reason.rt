// Why a batch is frozen.
ghost use Rattle.std.specs.Prelude.{◌≡◌, ◌≤◌, refl};
ghost use Rattle.wire.specs.Number.{between};
ghost use Rattle.wire.specs.Reading.{Reads, meant};
ghost use Rattle.survey.specs.Reasons.{reason_number, ReasonOf};

use wire::fault::Fault;
use wire::number::read_number;

// The largest number of a reason.
pub const LAST_REASON: u64 = 5;

// With their numbers in the image.
#[derive(Clone, Copy, PartialEq, Eq)]
pub enum Reason {
    Fsync = 1,
    Fsyncdir = 2,
    Quiesce = 3,
    Periodic = 4,
    Threshold = 5,
}

impl Reason {
    // Its number in the image: a method and no `From`, so that a call says what the number is.
    pub fn number(self) -> u64
        ensures { (result ≡ reason_number self) × (result ≤ 5) }
    {
        self as u64
    }
}

// The reason of a number; one that is none of 1 to 5 is badly formed.
impl TryFrom<u64> for Reason {
    type Error = Fault;

    ghost try_from_gives = { ReasonOf };

    fn try_from(number: u64) -> Result<Reason, Fault> {
        match number {
            1 => Ok(Reason::Fsync),
            2 => Ok(Reason::Fsyncdir),
            3 => Ok(Reason::Quiesce),
            4 => Ok(Reason::Periodic),
            5 => Ok(Reason::Threshold),
            _ => Err(Fault::Malformed),
        }
    }
}

// The reason at `at`, and the place after it.
pub fn read_reason(img: &[u8], at: usize) -> Result<(Reason, usize), Fault>
    ensures { Reads img.now (between 1 5 refl).read at (meant reason_number result) }
{
    let (number, next) = read_number(img, at, LAST_REASON)?;
    let reason = Reason::try_from(number)?;
    Ok((reason, next))
}
