// The grammar of clauses, and that reading follows it. Pure definitions and theorems; each theorem stands on a function.
#![tactic(auto)]

ghost use Rattle.grammar.specs.Laws.{GrammarLaw};

// What is read as a clause is tokens that are a clause of the grammar, and the cells that were read spell that clause.
pub fn grammar_stands()
    ensures { GrammarLaw }
{}
