// Two sources as one: of each predicate the first's clauses and then the second's, at most 65,535 of them.
ghost use Rattle.std.specs.Prelude.{◌≡◌, ℕ, ◌-◌, ◌<◌, ◌≤◌, min, List, [], length};
ghost use Rattle.clauses.specs.Pairs.{joint, place_of, Placed};
ghost use Rattle.clauses.specs.PairsLemmas.{joint_short, joint_each};
ghost use Rattle.clauses.specs.Clauses.{Formed, OfPredicate};

use crate::{Predicate, ProgramSource, Refusal, Source};
use terms::Cell;

// A list has at most so many clauses.
const MOST: usize = 65535;

#[derive(Drop)]
pub struct Pair<A, B> {
    first: A,
    second: B,
}

// Which of the two has a clause, and under which number there.
#[derive(Clone, Copy, Debug, PartialEq, Eq)]
enum Place {
    First(usize),
    Second(usize),
}

impl<A: Source, B: Source> Pair<A, B> {
    pub fn new(first: A, second: B) -> Pair<A, B>
        ensures { (result.first ≡ first) × (result.second ≡ second) }
    {
        Pair { first, second }
    }

    // Only the first is asked for its length: the second refuses a number that is not below its own.
    fn place(&self, predicate: Predicate, number: usize) -> Option<Place>
        ensures { Placed (A.Source.clauses self.now.first predicate.symbol predicate.arity) (B.Source.clauses self.now.second predicate.symbol predicate.arity) number result × (result ≡ place_of (length (A.Source.clauses self.now.first predicate.symbol predicate.arity)) number) }
    {
        place_after(self.first.count(predicate), number)
    }
}

// Where the clause with a number stands, the first source having so many; past the most that a list has, nowhere.
fn place_after(count: usize, number: usize) -> Option<Place>
    ensures { result ≡ place_of count number }
{
    if number >= MOST {
        None
    } else if number < count {
        Some(Place::First(number))
    } else {
        Some(Place::Second(number - count))
    }
}

impl<A: Source, B: Source> Source for Pair<A, B> {
    ghost clauses = { λ s p n. joint (A.Source.clauses s.first p n) (B.Source.clauses s.second p n) };

    ghost short = { λ s p n. joint_short (A.Source.clauses s.first p n) (B.Source.clauses s.second p n) };

    ghost formed = { λ s p n. joint_each Formed (A.Source.clauses s.first p n) (B.Source.clauses s.second p n) (A.Source.formed s.first p n) (B.Source.formed s.second p n) };

    fn count(&self, predicate: Predicate) -> usize {
        (self.first.count(predicate) + self.second.count(predicate)).min(MOST)
    }

    fn write(
        &self,
        predicate: Predicate,
        number: usize,
        base: u32,
        out: &mut [Cell],
        at: usize,
    ) -> Result<usize, Refusal> {
        match self.place(predicate, number).ok_or(Refusal::ClauseNumber)? {
            Place::First(k) => self.first.write(predicate, k, base, out, at),
            Place::Second(k) => self.second.write(predicate, k, base, out, at),
        }
    }
}

impl<A: ProgramSource, B: ProgramSource> ProgramSource for Pair<A, B> {
    ghost of_predicate = { λ s p n. joint_each (OfPredicate p n) (A.Source.clauses s.first p n) (B.Source.clauses s.second p n) (A.ProgramSource.of_predicate s.first p n) (B.ProgramSource.of_predicate s.second p n) };
}
