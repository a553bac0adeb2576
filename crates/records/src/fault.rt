// Why a byte string is not all good records, and where.
ghost use Rattle.std.specs.Prelude.{◌≡◌, Some};
ghost use Rattle.records.specs.Numbers.{number_of, fault_text};

use std::fmt;

// What is wrong with a record: it is cut short; its map has no card, or a bit that has no field; or its cycles are 2^31 or more.
#[derive(Clone, Copy, Debug, PartialEq, Eq)]
pub enum Cause {
    Short = 4,
    Map = 5,
    Cycles = 18,
}

// The number that a cause is told by.
impl From<Cause> for u8 {
    ghost from_gives = { λ cause n. n ≡ number_of cause };

    fn from(cause: Cause) -> u8 {
        cause as u8
    }
}

// The cause and the place of the record's first byte. A text's fault has other causes, in a crate that knows nothing of records: one type for both would
// cost a crate, a trait and a bound, and saves two fields.
#[derive(Clone, Copy, Debug, PartialEq, Eq)]
pub struct BenchFault {
    pub cause: Cause,
    pub at: usize,
}

impl fmt::Display for BenchFault {
    ghost output = { λ fault. Some (fault_text fault) };

    fn fmt<W: fmt::Write>(&self, f: &mut fmt::Formatter<W>) -> fmt::Result {
        write!(f, "{} at {}", u8::from(self.cause), self.at)
    }
}
