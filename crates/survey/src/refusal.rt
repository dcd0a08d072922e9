// Why a call is refused.
ghost use Rattle.std.specs.Prelude.{◌≡◌, Some};
ghost use Rattle.survey.specs.Verdict.{number_of, refusal_text};
ghost use Rattle.survey.specs.declared.refusal.Refusal.TheVariants.{ImageBroken};

use std::fmt;
use wire::fault::Fault;

#[derive(Clone, Copy, PartialEq, Eq)]
pub enum Refusal {
    // the image is over 65,536 bytes
    ImageTooLong = 1,
    // the image is not by the layout
    ImageBroken = 2,
    // the name is empty, or over 255 bytes
    BadName = 3,
    // a delta breaks the layout, has bytes left over or is a tombstone; or a time has 1,000,000,000 nanoseconds or more; or a reason is none of 1 to 5
    BadArgument = 4,
    // the new image is over 65,536 bytes or over the target, or the rows are more than were lent
    NoRoom = 5,
    // the queue is at one of its limits
    AtCapacity = 6,
    // there is nothing to freeze
    LiveEmpty = 7,
    // there is no batch to fold or to pop
    NoBatch = 8,
    // the id isn't the front batch's
    WrongBatch = 9,
    // a staged count, or the next id, is at its end
    CountFull = 10,
    // the position is above the number of batches
    NoLayer = 11,
}

impl Refusal {
    // Its number, which a caller from C is given: a method and no `From`, so that a call says what the number is.
    pub fn number(self) -> u32
        ensures { result ≡ number_of self }
    {
        self as u32
    }
}

// As the programs write a refusal.
impl fmt::Display for Refusal {
    ghost output = { λ refusal. Some (refusal_text refusal) };

    fn fmt<W: fmt::Write>(&self, f: &mut fmt::Formatter<W>) -> fmt::Result {
        write!(f, "refused {}", self.number())
    }
}

// Bytes that end too soon and bytes that are badly formed are one refusal.
impl From<Fault> for Refusal {
    ghost from_gives = { λ _ r. r ≡ ImageBroken };

    fn from(_fault: Fault) -> Refusal {
        Refusal::ImageBroken
    }
}
