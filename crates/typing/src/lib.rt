// What the words mean: terms, assignments, kinds, typed unification by rules in every order. Pure definitions and theorems; each theorem stands on a function.
#![tactic(auto)]

ghost use Rattle.typing.specs.Rules.{EveryOrder};
ghost use Rattle.typing.specs.Worked.{Worked};

// Whatever the order of the rules, they end, with one outcome, which is the one that has its meaning.
pub fn unification_stands()
    ensures { EveryOrder }
{}

// Worked examples, joined in one statement.
pub fn worked_examples_stand()
    ensures { Worked }
{}
