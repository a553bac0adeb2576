// A constraint store: equations between terms that stand together, marks to take them back to, and questions under them.
#![tactic(auto)]

ghost use Rattle.std.specs.Prelude.{◌≡◌, Some, decimal};
ghost use Rattle.store.specs.Numbers.{number_of, refusal_of};

use std::error::Error;
use std::fmt;

mod base;
pub mod call;
mod calls;
mod judge;
pub mod replay;
mod solver;
mod solving;
pub mod store;
mod table;
pub mod token;

// The pairs and the frames that a caller lends to each call. Two slices and no struct of them: the calls ask no more of callers, and take no memory.
pub use resolution::search::ask::{FRAMES, PAIRS};

// The cells of an equation or a question, the equations that stand, and the open marks.
pub(crate) use resolution::search::ask::MOST_CELLS;

pub(crate) const MOST_EQUATIONS: usize = 16;

pub(crate) const MOST_MARKS: usize = 8;

// Why a call was refused. Number 6: the cells are not two terms, or no goal list, or a variable is above 31. Number 7: over 32 cells, or over 8 goals.
// Number 8: sixteen equations stand. Number 9: eight marks are open. Number 10: the token is not that of the newest mark. Number 11: the equations are not solved.
// Number 13: a variable above 31. Number 14: the whole cut tree has more steps than the allowance. Number 15: too little scratch. Number 16: an output slice is too short.
#[derive(Clone, Copy, Debug, PartialEq, Eq)]
pub enum Refusal {
    NotTerms = 6,
    TooLarge = 7,
    EquationsFull = 8,
    MarksFull = 9,
    NotNewest = 10,
    NotSolved = 11,
    NoVariable = 13,
    Allowance = 14,
    ScratchShort = 15,
    OutputShort = 16,
}

impl From<Refusal> for u8 {
    ghost from_gives = { λ refusal number. number ≡ number_of refusal };

    fn from(refusal: Refusal) -> u8 {
        refusal as u8
    }
}

// What the search refuses, by the store's names. No search refuses settings, since they are made only within their limits: that case is here to be total.
impl From<verdicts::Refusal> for Refusal {
    ghost from_gives = { λ searched refusal. refusal ≡ refusal_of searched };

    fn from(searched: verdicts::Refusal) -> Refusal {
        match searched {
            verdicts::Refusal::NoGoalList => Refusal::NotTerms,
            verdicts::Refusal::TooLarge => Refusal::TooLarge,
            verdicts::Refusal::Settings | verdicts::Refusal::Allowance => Refusal::Allowance,
            verdicts::Refusal::ScratchShort => Refusal::ScratchShort,
            verdicts::Refusal::PathShort => Refusal::OutputShort,
        }
    }
}

// A refusal is told by its number. The other enums with numbers have impls of the same shape: no derive does it, and the toolchain refuses an impl that a
// macro of the repository's own writes.
impl fmt::Display for Refusal {
    ghost output = { λ refusal. Some (decimal (number_of refusal)) };

    fn fmt<W: fmt::Write>(&self, f: &mut fmt::Formatter<W>) -> fmt::Result {
        write!(f, "{}", u8::from(*self))
    }
}

impl Error for Refusal {}
