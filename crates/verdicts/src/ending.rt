// How a branch of the tree ends or goes on, and what is kept of its leaves.
ghost use Rattle.std.specs.Prelude.{◌≡◌, Some};
ghost use Rattle.verdicts.specs.Leaves.{ending_of, state_of, noted, shorter, verdict_of};

use crate::Verdict;
use unification::Outcome;

// What is left to do at a node: nothing; goals, and no step for them below the limit; or a goal to take.
#[derive(Clone, Copy, Debug, PartialEq, Eq)]
pub enum Left {
    Nothing,
    Cut,
    Goals,
}

// How a branch ends.
#[derive(Clone, Copy, Debug, PartialEq, Eq)]
pub enum Ending {
    Success,
    Untrue,
    Wrong,
    Cut,
}

// What the leaves so far say: the uses of the shortest success, whether a leaf was cut, whether all were wrong.
#[derive(Clone, Copy, Debug, PartialEq, Eq)]
pub struct Leaves {
    pub uses: Option<u8>,
    pub cut: bool,
    pub wrong: bool,
}

// What the leaves so far say, and the steps so far.
#[derive(Clone, Copy, Debug, PartialEq, Eq)]
pub struct Tally {
    pub leaves: Leaves,
    pub steps: u32,
}

pub fn goals_left(goals: bool, step: u8, limit: u8) -> Left
    ensures { result ≡ state_of goals step limit }
{
    if !goals {
        Left::Nothing
    } else if step >= limit {
        Left::Cut
    } else {
        Left::Goals
    }
}

// The node's flag, its goals and the outcome of the step to it, together: how its branch ends, or nothing where it goes on.
pub fn branch_ending(flag: bool, goals: Left, outcome: Outcome) -> Option<Ending>
    ensures { result ≡ ending_of flag goals outcome }
{
    match (flag, goals, outcome) {
        (_, _, Outcome::Wrong) => Some(Ending::Wrong),
        (_, Left::Cut, _) => Some(Ending::Cut),
        (_, Left::Goals, _) => None,
        (true, Left::Nothing, Outcome::Solved) => Some(Ending::Success),
        (_, Left::Nothing, _) => Some(Ending::Untrue),
    }
}

impl Leaves {
    // Whether a success of so many uses is shorter than all before it. Of equally short ones the first stays.
    pub fn is_shorter(self, uses: u8) -> bool
        ensures { result ≡ shorter self.uses uses }
    {
        self.uses.is_none_or(|best| uses < best)
    }

    // The leaves with one more, after so many steps, where the branch ends there; as they are, where it goes on.
    pub fn note(self, end: Option<Ending>, step: u8) -> Leaves
        ensures { result ≡ noted self end step }
    {
        match end {
            Some(Ending::Success) if self.is_shorter(step) => Leaves {
                uses: Some(step),
                wrong: false,
                ..self
            },
            Some(Ending::Success | Ending::Untrue) => Leaves {
                wrong: false,
                ..self
            },
            Some(Ending::Cut) => Leaves {
                cut: true,
                wrong: false,
                ..self
            },
            Some(Ending::Wrong) | None => self,
        }
    }

    // What the leaves say together.
    pub fn verdict(self) -> Verdict
        ensures { result ≡ verdict_of self }
    {
        match (self.uses, self.cut, self.wrong) {
            (Some(uses), _, _) => Verdict::Holds(uses),
            (None, true, _) => Verdict::Unsettled,
            (None, false, true) => Verdict::Erroneous,
            (None, false, false) => Verdict::Fails,
        }
    }
}
