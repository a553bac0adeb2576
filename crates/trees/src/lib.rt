// What the words mean: goals, clauses, the cut tree, proofs. Pure definitions and theorems; each theorem stands on a function.
#![tactic(auto)]

ghost use Rattle.trees.specs.Claims.{TreeTheory};
ghost use Rattle.trees.specs.Summaries.{SummaryLaw};
ghost use Rattle.trees.specs.Search.{SearchLaw, MovesLaw, RootLaw, CountLaw};
ghost use Rattle.trees.specs.Worked.{Worked};
ghost use Rattle.trees.specs.Arguments.{ArgumentsLaw};

// The success leaves of a node's tree are its proofs within the limit; the path told is that of a proof, and none is better; a node has one tree.
pub fn tree_stands()
    ensures { TreeTheory }
{}

// The summary of a tree is a fold over its leaves in order, and a search on a stack of work gathers it.
pub fn search_stands()
    ensures { SummaryLaw × SearchLaw × MovesLaw × RootLaw × CountLaw }
{}

// Worked questions, joined in one statement.
pub fn worked_examples_stand()
    ensures { Worked }
{}

// One equation of two goals is as good as the equations of their arguments.
pub fn arguments_stand()
    ensures { ArgumentsLaw }
{}
