// The classes of all 256 bytes, as one table.
ghost use Rattle.std.specs.Prelude.{◌≡◌, ℕ, ◌<◌, ◌≤◌};
ghost use Rattle.lexis.specs.Classes.{class_of, number_of};

// What a byte is to a token, with the number that the rules give: a blank; a digit; a lower letter; an upper letter or the underscore; a mark; any other visible byte; or none of these.
#[derive(Clone, Copy, PartialEq, Eq, Debug)]
pub enum Class {
    Other = 0,
    Blank = 1,
    Digit = 2,
    Lower = 3,
    Upper = 4,
    Mark = 5,
    Visible = 6,
}

use Class::{Blank as B, Digit as D, Lower as L, Mark as M, Other as O, Upper as U, Visible as V};

static CLASSES: [Class; 256] = [
    O, O, O, O, O, O, O, O, O, B, B, O, O, B, O, O, O, O, O, O, O, O, O, O, O, O, O, O, O, O, O, O,
    B, V, M, V, V, V, V, V, M, M, V, V, M, M, M, V, D, D, D, D, D, D, D, D, D, D, M, V, V, V, V, M,
    V, U, U, U, U, U, U, U, U, U, U, U, U, U, U, U, U, U, U, U, U, U, U, U, U, U, U, V, V, V, V, U,
    V, L, L, L, L, L, L, L, L, L, L, L, L, L, L, L, L, L, L, L, L, L, L, L, L, L, L, V, V, V, V, O,
    O, O, O, O, O, O, O, O, O, O, O, O, O, O, O, O, O, O, O, O, O, O, O, O, O, O, O, O, O, O, O, O,
    O, O, O, O, O, O, O, O, O, O, O, O, O, O, O, O, O, O, O, O, O, O, O, O, O, O, O, O, O, O, O, O,
    O, O, O, O, O, O, O, O, O, O, O, O, O, O, O, O, O, O, O, O, O, O, O, O, O, O, O, O, O, O, O, O,
    O, O, O, O, O, O, O, O, O, O, O, O, O, O, O, O, O, O, O, O, O, O, O, O, O, O, O, O, O, O, O, O,
];

impl From<Class> for u8 {
    ghost from_gives = { λ class n. n ≡ number_of class };

    fn from(class: Class) -> u8 {
        class as u8
    }
}

impl Class {
    // The class of a byte.
    pub fn of(b: u8) -> Class
        ensures { result ≡ class_of b }
    {
        CLASSES[b as usize]
    }
}
