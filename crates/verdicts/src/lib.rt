// What is told of a question: how branches of the cut tree end, what the leaves say together, refusals and settings.
#![tactic(auto)]

ghost use Rattle.std.specs.Prelude.{◌≡◌, Some, decimal};
ghost use Rattle.verdicts.specs.Numbers.{number_of};

use std::error::Error;
use std::fmt;

pub mod ending;
pub mod settings;

// Why a question was refused. Number 6: the cells are no goal list, or a variable is above 31. Number 7: over 32 cells or 8 goals.
// Number 12: a step limit outside 1 to 32, or an allowance outside 1 to 1,000,000. Number 14: the whole cut tree has more steps than the allowance.
// Number 15: too little scratch. Number 16: a path slice of fewer than 32 places.
#[derive(Clone, Copy, Debug, PartialEq, Eq)]
pub enum Refusal {
    NoGoalList = 6,
    TooLarge = 7,
    Settings = 12,
    Allowance = 14,
    ScratchShort = 15,
    PathShort = 16,
}

impl From<Refusal> for u8 {
    ghost from_gives = { λ refusal number. number ≡ number_of refusal };

    fn from(refusal: Refusal) -> u8 {
        refusal as u8
    }
}

// A refusal is told by its number.
impl fmt::Display for Refusal {
    ghost output = { λ refusal. Some (decimal (number_of refusal)) };

    fn fmt<W: fmt::Write>(&self, f: &mut fmt::Formatter<W>) -> fmt::Result {
        write!(f, "{}", u8::from(*self))
    }
}

impl Error for Refusal {}

// What the leaves of the cut tree say: holds, with the uses of the shortest success; else unsettled where a leaf is cut; else erroneous where every leaf is wrong; else fails.
#[derive(Clone, Copy, Debug, PartialEq, Eq)]
pub enum Verdict {
    Holds(u8),
    Fails,
    Erroneous,
    Unsettled,
}

// The verdict, and the number of steps in the whole cut tree.
#[derive(Clone, Copy, Debug, PartialEq, Eq)]
pub struct Answer {
    pub verdict: Verdict,
    pub steps: u32,
}
