// How goals and clauses are spelt in cells, and the program that a source's cells spell. Pure definitions and theorems; each theorem stands on a function.
#![tactic(auto)]

ghost use Rattle.programs.specs.Laws.{SpellingLaw};

// Cells that are a clause spell one, and only one; cells made new spell the clause made new; a source's cells spell a program.
pub fn spelling_stands()
    ensures { SpellingLaw }
{}
