// Records as a source: the facts are taken from the bytes once, so that one of them is found without the others.
ghost use Rattle.std.specs.Prelude.{◌≡◌, ℕ, ◌<◌, ◌≤◌, List, [], map, length, IfOk, MatchOption, slice_index_or};
ghost use Rattle.records.specs.Facts.{cells_of, facts_under, cut};
ghost use Rattle.records.specs.Meaning.{list_of, record_clauses};
ghost use Rattle.records.specs.Sourcing.{records_short, records_formed};

use crate::Records;
use crate::fact::{Fact, Symbols};
use crate::gather::Listing;
use crate::scan::first_bad;
use clauses::{Predicate, ProgramSource, Refusal, Source, rename};
use std::alloc::{AllocError, Global};
use terms::Cell;

impl Records {
    // The facts of the records before the first bad one. Memory is taken here and nowhere later.
    pub fn new(heap: Global, bytes: &[u8], symbols: Symbols) -> Result<Records, AllocError>
        ensures { IfOk result (λ s. ((p n : ℕ) → record_clauses s p n ≡ map cells_of (cut (facts_under symbols bytes.now p n)))) }
    {
        let end = first_bad(bytes);
        let lots = Listing::gather(heap, bytes, end, symbols, symbols.lot)?;
        let stages = Listing::gather(heap, bytes, end, symbols, symbols.stage)?;
        let cycles = Listing::gather(heap, bytes, end, symbols, symbols.cycles)?;
        Ok(Records {
            lots,
            stages,
            cycles,
        })
    }

    // The facts of a predicate.
    fn listing(&self, predicate: Predicate) -> &[Fact]
        ensures { result.now ≡ list_of self.now predicate.symbol predicate.arity }
    {
        if predicate.arity != 2 {
            &[]
        } else if predicate.symbol == self.lots.symbol as u32 {
            self.lots.facts.as_slice()
        } else if predicate.symbol == self.stages.symbol as u32 {
            self.stages.facts.as_slice()
        } else if predicate.symbol == self.cycles.symbol as u32 {
            self.cycles.facts.as_slice()
        } else {
            &[]
        }
    }

    // The fact with that number among those of the predicate.
    fn fact(&self, predicate: Predicate, number: usize) -> Option<Fact>
        ensures { MatchOption result (length (record_clauses self.now predicate.symbol predicate.arity) ≤ number) (λ f. (number < length (record_clauses self.now predicate.symbol predicate.arity)) × (slice_index_or (record_clauses self.now predicate.symbol predicate.arity) number [] ≡ cells_of f)) }
    {
        self.listing(predicate).get(number).copied()
    }
}

impl Source for Records {
    ghost clauses = { record_clauses };

    ghost short = { records_short };

    ghost formed = { λ s p n k h. (records_formed s p n k h).formed };

    fn count(&self, predicate: Predicate) -> usize {
        self.listing(predicate).len()
    }

    fn write(
        &self,
        predicate: Predicate,
        number: usize,
        base: u32,
        out: &mut [Cell],
        at: usize,
    ) -> Result<usize, Refusal> {
        let fact = self.fact(predicate, number).ok_or(Refusal::ClauseNumber)?;
        rename::write(&fact.cells(), base, out, at)
    }
}

impl ProgramSource for Records {
    ghost of_predicate = { records_formed };
}
