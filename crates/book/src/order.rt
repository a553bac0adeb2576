// Rows in the order of their predicates, so that those of one predicate are found without a look at the others.
ghost use Rattle.std.specs.Prelude.{◌≡◌, filter};
ghost use Rattle.book.specs.Fit.{before, up_to, Parted, From};
ghost use Rattle.book.specs.Meaning.{is_for};

use crate::{Book, Row};
use clauses::Predicate;

impl Book {
    // The place of the predicate's first row: those of lower predicates come before it.
    pub(crate) fn start_of(&self, predicate: Predicate) -> usize
        ensures { Parted self.now.rows.items (λ q. before q predicate) result }
    {
        self.rows
            .as_slice()
            .partition_point(|row| row.predicate < predicate)
    }

    // The place after the predicate's last row.
    pub(crate) fn end_of(&self, predicate: Predicate) -> usize
        ensures { Parted self.now.rows.items (λ q. up_to q predicate) result }
    {
        self.rows
            .as_slice()
            .partition_point(|row| row.predicate <= predicate)
    }

    // The rows from the predicate's first on.
    pub(crate) fn rows_from(&self, predicate: Predicate) -> &[Row]
        ensures { From self.now.rows.items predicate result.now }
    {
        let first = self.start_of(predicate);
        &self.rows.as_slice()[first..]
    }

    // The rows of a predicate.
    pub(crate) fn rows_of(&self, predicate: Predicate) -> &[Row]
        ensures { result.now ≡ filter (is_for predicate.symbol predicate.arity) self.now.rows.items }
    {
        let rest = self.rows_from(predicate);
        // those of the predicate stand first, and to compare for equality is quicker than by order
        let end = rest.partition_point(|row| row.predicate == predicate);
        &rest[..end]
    }
}
