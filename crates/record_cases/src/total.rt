// A sum over the clauses of any source.
ghost use Rattle.std.specs.Prelude.{◌≡◌, ℕ, ◌<◌, ◌≤◌, List, [], ◌∷◌, length, slice_index_or};
ghost use Rattle.record_cases.specs.Sizes.{sizes};

use clauses::{Predicate, Source};
use terms::Cell;

// How many cells one clause has.
fn cells_of<S: Source>(source: &S, predicate: Predicate, i: usize, out: &mut [Cell]) -> usize
    requires i_in_bounds { i < length (S.clauses source.now predicate.symbol predicate.arity) }
    requires in_bounds { 32 ≤ length out.old }
    ensures value { result ≡ length (slice_index_or (S.clauses source.now predicate.symbol predicate.arity) i []) }
    ensures upper_bound { result ≤ 32 }
{
    match source.write(predicate, i, 0, out, 0) {
        Ok(n) => n,
        Err(_) => unreachable(),
    }
}

// How many cells all clauses of the predicate have. A loop, as each clause is written over the one before it: a chain's closure would change what it holds.
pub fn total<S: Source>(source: &S, predicate: Predicate) -> usize
    ensures { result ≡ sizes (S.clauses source.now predicate.symbol predicate.arity) }
{
    let mut out = [Cell::default(); 32];
    let mut all: usize = 0;
    for i in 0..source.count(predicate) {
        all += cells_of(source, predicate, i, &mut out);
    }
    all
}
