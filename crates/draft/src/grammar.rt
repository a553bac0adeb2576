// Which token may follow which: a clause is a goal, perhaps with a neck and goals joined by commas, and a dot.
ghost use Rattle.std.specs.Prelude.{◌≡◌};
ghost use Rattle.draft.specs.Grammar.{goal_begins, term_begins, term_ends, after};

use lexis::token::Kind;

// What is due: the head; a goal; a goal or at once the dot; an argument; what may follow a name; what may follow a whole term or goal; nothing.
#[derive(Clone, Copy, PartialEq, Eq, Debug)]
pub enum Due {
    Head,
    Goal,
    GoalOrDot,
    Argument,
    NameEnd,
    TermEnd,
    Nothing,
}

fn begin_goal(kind: Kind) -> Option<Due>
    ensures { result ≡ goal_begins kind }
{
    (kind == Kind::Name).then_some(Due::NameEnd)
}

fn begin_term(kind: Kind) -> Option<Due>
    ensures { result ≡ term_begins kind }
{
    match kind {
        Kind::Name => Some(Due::NameEnd),
        Kind::Variable | Kind::Integer | Kind::Float | Kind::Text => Some(Due::TermEnd),
        _ => None,
    }
}

// Inside brackets a term is followed by a comma or the closing bracket; outside, the head by its neck, a body goal by a comma, and either by the dot.
fn end_term(kind: Kind, nested: bool, body: bool) -> Option<Due>
    ensures { result ≡ term_ends nested body kind }
{
    match (kind, nested, body) {
        (Kind::Comma, true, _) => Some(Due::Argument),
        (Kind::Close, true, _) => Some(Due::TermEnd),
        (Kind::Comma, false, true) => Some(Due::Goal),
        (Kind::Neck, false, false) => Some(Due::Goal),
        (Kind::Dot, false, _) => Some(Due::Nothing),
        _ => None,
    }
}

// What is due after a token, or none where it does not fit. A table of values and no function for each state: a text may nest deeper than a stack.
pub fn follow(due: Due, kind: Kind, nested: bool, body: bool) -> Option<Due>
    ensures { result ≡ after due nested body kind }
{
    match (due, kind) {
        (Due::GoalOrDot, Kind::Dot) => Some(Due::Nothing),
        (Due::Head | Due::Goal | Due::GoalOrDot, _) => begin_goal(kind),
        (Due::Argument, _) => begin_term(kind),
        (Due::NameEnd, Kind::Open) => Some(Due::Argument),
        (Due::NameEnd | Due::TermEnd, _) => end_term(kind, nested, body),
        (Due::Nothing, _) => None,
    }
}
