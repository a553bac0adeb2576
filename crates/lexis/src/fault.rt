// Why a text is refused, and where.
ghost use Rattle.std.specs.Prelude.{◌≡◌, Some};
ghost use Rattle.lexis.specs.Faults.{number_of};

use std::fmt;

// What is wrong with a text: it is not the grammar; a part of a clause is over its limit; the book is full; or the question is over its limits.
#[derive(Clone, Copy, PartialEq, Eq, Debug)]
pub enum Cause {
    Grammar = 1,
    Size = 2,
    Full = 3,
    Question = 7,
}

// The cause and the place of the byte that it is told at. A fault passes unchanged from token to clause to book.
#[derive(Clone, Copy, PartialEq, Eq, Debug)]
pub struct Fault {
    pub cause: Cause,
    pub at: usize,
}

impl Cause {
    // The fault of this cause, told at a place.
    pub fn at(self, at: usize) -> Fault
        ensures { result ≡ record { cause = self; at = at } }
    {
        Fault { cause: self, at }
    }
}

impl From<Cause> for u8 {
    ghost from_gives = { λ cause n. n ≡ number_of cause };

    fn from(cause: Cause) -> u8 {
        cause as u8
    }
}

// The number of the cause, and the place.
impl fmt::Display for Fault {
    ghost use Rattle.lexis.specs.Told.{told};

    ghost output = { λ fault. Some (told fault) };

    fn fmt<W: fmt::Write>(&self, f: &mut fmt::Formatter<W>) -> fmt::Result {
        let number = u8::from(self.cause);
        let at = self.at;
        write!(f, "{number} at {at}")
    }
}
