// Why a reader stops.
ghost use Rattle.std.specs.Prelude.{Some};
ghost use Rattle.wire.specs.Printed.{fault_text};

use std::fmt;

// The bytes end before the field is complete, or the field is badly formed.
#[derive(Clone, Copy, PartialEq, Eq)]
pub enum Fault {
    Ended,
    Malformed,
}

impl fmt::Display for Fault {
    ghost output = { λ fault. Some (fault_text fault) };

    fn fmt<W: fmt::Write>(&self, f: &mut fmt::Formatter<W>) -> fmt::Result {
        f.write_str(match self {
            Fault::Ended => "ended",
            Fault::Malformed => "malformed",
        })
    }
}
