// The open book: clauses are read into it.
ghost use Rattle.std.specs.Prelude.{◌≡◌, ℕ, ◌+◌, ◌<◌, ◌≤◌, true, false, ◌&&◌, [], ◌++◌, length, IfOk, vec_len, MatchResult, nat_le, nat_lt};
ghost use Rattle.lexis.specs.declared.fault.Cause.TheVariants.{Full};
ghost use Rattle.names.specs.Spans.{words_in};
ghost use Rattle.names.specs.Words.{names_of};
ghost use Rattle.draft.specs.Spelled.{Spelled};
ghost use Rattle.book.specs.Meaning.{open_clauses, book_clauses, Taken, Admitted, has_room};
ghost use Rattle.book.specs.Reading.{Accepted, Refused};

use crate::{Book, Row, SealedBook};
use clauses::Predicate;
use draft::Draft;
use lexis::fault::{Cause, Fault};
use names::Names;
use std::alloc::{AllocError, Global};

// A book has at most so many clauses, of so many cells together.
const MOST_CLAUSES: usize = 256;

const MOST_CELLS: usize = 2048;

impl Book {
    // Memory is taken here and nowhere later.
    pub fn new(heap: Global) -> Result<Book, AllocError>
        ensures { IfOk result (λ b. (b.rows.items ≡ []) × (b.cells.items ≡ []) × (names_of b.names ≡ [])) }
    {
        Ok(Book {
            names: Names::new(heap)?,
            cells: Vec::with_capacity(heap, MOST_CELLS)?,
            rows: Vec::with_capacity(heap, MOST_CLAUSES)?,
        })
    }

    // Whether there is room for one clause more, of so many cells.
    fn has_room(&self, cells: usize) -> bool
        ensures { result ≡ (nat_lt (length self.now.rows.items) 256 && nat_le (length self.now.cells.items + cells) 2048) }
    {
        self.rows.len() < MOST_CLAUSES && cells <= MOST_CELLS - self.cells.len()
    }

    // The draft's clause, for which there is room. Its row comes after the others of its predicate.
    fn add(&mut self, draft: &Draft)
        requires spelled { Spelled 1 draft.now.cells.items }
        requires room { (vec_len self.old.rows < 256) × (vec_len self.old.cells + length draft.now.cells.items ≤ 2048) }
        ensures { Taken self.old self.new draft.now.cells.items }
    {
        let clause = draft.cells();
        let row = Row {
            predicate: Predicate::of(clause[0]),
            from: self.cells.len(),
            len: clause.len(),
        };
        let at = self.end_of(row.predicate);
        let Ok(()) = self.cells.extend_from_slice(clause) else {
            unreachable()
        };
        let Ok(()) = self.rows.insert(at, row) else {
            unreachable()
        };
    }

    // Takes the draft's clause in, with its new names, or tells that the book is full and is as it was.
    fn admit(&mut self, draft: &Draft, text: &[u8]) -> Result<(), Fault>
        requires { Spelled 1 draft.now.cells.items }
        ensures { MatchResult result (λ _. (has_room self.old (length draft.now.cells.items) (names_of self.old.names ++ words_in text.now draft.now.fresh.items) ≡ true) × Admitted self.old self.new draft.now.cells.items (names_of self.old.names ++ words_in text.now draft.now.fresh.items)) (λ e. (has_room self.old (length draft.now.cells.items) (names_of self.old.names ++ words_in text.now draft.now.fresh.items) ≡ false) × (e ≡ record { cause = Full; at = draft.now.start }) × (self.new ≡ self.old)) }
    {
        let full = Cause::Full.at(draft.start());
        if !self.has_room(draft.cells().len()) {
            return Err(full);
        }
        self.names.take_in(text, draft.fresh()).map_err(|_| full)?;
        self.add(draft);
        Ok(())
    }

    // Reads one clause from a place on, and tells the place after its dot. A fault leaves the book as it was.
    pub fn read(&mut self, draft: &mut Draft, text: &[u8], at: usize) -> Result<usize, Fault>
        ensures read { MatchResult result (λ end. Accepted self.old self.new text.now at end) (λ e. Refused self.old text.now at e × (self.new ≡ self.old)) }
        ensures bounds { IfOk result (λ end. (at ≤ length text.now → at < end) × (end ≤ length text.now)) }
    {
        let end = draft.clause(text, at)?;
        draft.number(&self.names, text);
        self.admit(draft, text)?;
        Ok(end)
    }

    // No further clause: the book becomes a source.
    pub fn seal(self) -> SealedBook
        ensures clauses { (p n : ℕ) → book_clauses result p n ≡ open_clauses self p n }
        ensures names { names_of result.book.names ≡ names_of self.names }
    {
        SealedBook { book: self }
    }
}
