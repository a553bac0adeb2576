// The small decisions of a search, each by itself.
ghost use Rattle.std.specs.Prelude.{◌≡◌, ◌+◌, ◌*◌, ◌<◌, ◌^◌, nat_le};
ghost use Rattle.frames.specs.Owed.{one_more, root_of};
ghost use Rattle.frames.specs.Steps.{next_clause, dropped};

use crate::{Frame, Node, Waiting};
use verdicts::ending::Tally;
use verdicts::settings::Settings;

impl Node {
    // The root of a question's tree.
    pub fn root(goals: Option<usize>) -> Node
        ensures { result ≡ root_of goals }
    {
        Node {
            goals,
            flag: true,
            step: 0,
        }
    }
}

impl Frame {
    // The node after a goal is dropped: the other goals are left, and the flag is false.
    pub fn after_drop(self, goal: Waiting) -> Node
        requires { self.node.step + 1 < 2 ^ 8 }
        ensures { result ≡ dropped self goal }
    {
        Node {
            goals: goal.rest,
            flag: false,
            step: self.node.step + 1,
        }
    }

    // The frame that goes on with the next clause.
    pub fn next_clause(self) -> Frame
        requires { self.clause + 1 < 2 ^ 64 }
        ensures { result ≡ next_clause self }
    {
        Frame {
            clause: self.clause + 1,
            ..self
        }
    }
}

// The first of the new variables of a step: no two steps of a branch share a number, and the question has 0 to 31.
pub fn base_of(step: u8) -> u32
    ensures { result ≡ 32 + 32 * step }
{
    32 + 32 * step as u32
}

// Whether no step more is allowed.
pub fn is_spent(settings: Settings, tally: Tally) -> bool
    ensures { result ≡ nat_le settings.allowance tally.steps }
{
    tally.steps >= settings.allowance()
}

// One step more.
pub fn one_more(tally: Tally) -> Tally
    requires { tally.steps + 1 < 2 ^ 32 }
    ensures { result ≡ one_more tally }
{
    Tally {
        steps: tally.steps + 1,
        ..tally
    }
}
