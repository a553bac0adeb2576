// A call on a store, and its reply, as values.
use crate::Refusal;
use crate::token::Slip;
use terms::Cell;
use unification::Outcome;
use verdicts::Answer;

// A token is named by what is written on it.
#[derive(Clone, Copy, Debug, PartialEq, Eq)]
pub enum Call<'a> {
    Enter(&'a [Cell]),
    Mark,
    Keep(Slip),
    TakeBack(Slip),
    Ask(&'a [Cell]),
    Read(u32),
}

#[derive(Clone, Copy, Debug, PartialEq, Eq)]
pub enum Reply {
    OfEnter(Result<Outcome, Refusal>),
    OfMark(Result<Slip, Refusal>),
    OfKeep(Result<(), Refusal>),
    OfTakeBack(Result<(), Refusal>),
    OfAsk(Result<Answer, Refusal>),
    OfRead(Result<usize, Refusal>),
}
