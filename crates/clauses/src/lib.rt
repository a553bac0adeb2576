// Sources of clauses: what a source means, and the renaming that keeps the variables of two uses of a clause apart.
#![tactic(auto)]

ghost use Rattle.std.specs.Prelude.{◌≡◌, ℕ, ◌<◌, ◌≤◌, List, [], length, slice_index_or};
ghost use Rattle.clauses.specs.Clauses.{Wrote, Formed, OfPredicates};
ghost use Rattle.terms.specs.declared.Cell.{Cell as CellOf};

use terms::Cell;

pub mod pair;
pub mod rename;

// Why no clause was written. Number 16: the slice is too short from the place on. Number 17: no clause has that number, or the base is above 1,056.
#[derive(Clone, Copy, Debug, PartialEq, Eq)]
pub enum Refusal {
    OutputShort = 16,
    ClauseNumber = 17,
}

// What a list of clauses stands under: a symbol with so many arguments.
#[derive(Clone, Copy, Debug, PartialEq, Eq, PartialOrd, Ord)]
pub struct Predicate {
    pub symbol: u32,
    pub arity: u8,
}

impl Predicate {
    // The predicate of a goal, by its first cell.
    pub fn of(goal: Cell) -> Predicate
        ensures { result ≡ record { symbol = goal.value; arity = goal.arity } }
    {
        Predicate {
            symbol: goal.value,
            arity: goal.arity,
        }
    }
}

// A source's meaning: for each predicate, which is a symbol and an arity, a list of clauses in order. A clause is its head and its body goals in cells.
pub trait Source {
    ghost clauses: { Self → ℕ → ℕ → List (List CellOf) };

    // How many clauses the predicate has.
    fn count(&self, predicate: Predicate) -> usize
        ensures { result ≡ length (clauses self.now predicate.symbol predicate.arity) };

    // Writes a clause, each variable raised by the base, into the slice from a place on, and tells how many cells that took.
    fn write(
        &self,
        predicate: Predicate,
        number: usize,
        base: u32,
        out: &mut [Cell],
        at: usize,
    ) -> Result<usize, Refusal>
        ensures { Wrote (clauses self.now predicate.symbol predicate.arity) number base at out.old out.new result };

    ghost short: { (s : Self) (p n : ℕ) → length (clauses s p n) ≤ 65535 };

    ghost formed: { (s : Self) (p n k : ℕ) → k < length (clauses s p n) → Formed (slice_index_or (clauses s p n) k []) };
}

// A source whose lists spell a program: a clause is its head, a goal of its list's predicate, and 0 to 8 body goals, in at most 32 cells, with variables
// numbered from 0 by first appearance.
pub trait ProgramSource: Source {
    ghost of_predicate: { (s : Self) → OfPredicates (Self.clauses s) };
}
