// The sealed book as a source: the clauses of a predicate are its rows, in order. They stand together, so no other row is looked at one by one.
ghost use Rattle.std.specs.Prelude.{◌≤◌, length, MatchOption};
ghost use Rattle.book.specs.Meaning.{book_clauses, Found};
ghost use Rattle.book.specs.Books.{books_short, books_formed};

use crate::{Row, SealedBook};
use clauses::{Predicate, ProgramSource, Refusal, Source, rename};
use terms::Cell;

impl SealedBook {
    // The row of the clause with that number. It is looked for once for each step of a search, so the end of its predicate's rows is not.
    fn row(&self, predicate: Predicate, number: usize) -> Option<Row>
        ensures { MatchOption result (length (book_clauses self.now predicate.symbol predicate.arity) ≤ number) (λ w. Found self.now.book predicate.symbol predicate.arity number w) }
    {
        self.book
            .rows_from(predicate)
            .get(number)
            .copied()
            .filter(|row| row.predicate == predicate)
    }
}

impl Source for SealedBook {
    ghost clauses = { book_clauses };

    ghost short = { books_short };

    ghost formed = { λ s p n k h. (books_formed s p n k h).formed };

    fn count(&self, predicate: Predicate) -> usize {
        self.book.rows_of(predicate).len()
    }

    fn write(
        &self,
        predicate: Predicate,
        number: usize,
        base: u32,
        out: &mut [Cell],
        at: usize,
    ) -> Result<usize, Refusal> {
        let row = self.row(predicate, number).ok_or(Refusal::ClauseNumber)?;
        let cells = self.book.cells.as_slice();
        rename::write(&cells[row.from..row.from + row.len], base, out, at)
    }
}

impl ProgramSource for SealedBook {
    ghost of_predicate = { books_formed };
}
