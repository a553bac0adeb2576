// Terms by their places in the cells.
ghost use Rattle.std.specs.Prelude.{◌≡◌, ◌+◌, ◌<◌, ◌≤◌, ◌&&◌, ◌++◌, [], length, take, IfOk, if◌then◌else◌, Some, None, ◌==◌, nat_lt, slice_index_or};
ghost use Rattle.graphs.specs.Cells.{after, node_at, arguments, fits, all_fit, blank};
ghost use Rattle.unification.specs.Arguments.{rest_of};
ghost use Rattle.unification.specs.State.{cells_in, takes, cell_at};

use super::{Arena, Arguments};
use crate::{ARENA, VARIABLES};
use std::alloc::{AllocError, Global};
use terms::Cell;

// Whether a cell has its place: its arity is at most 8, and its number, where it is a variable, below 1,056.
fn is_fit(c: Cell) -> bool
    ensures { result ≡ fits c }
{
    c.arity <= 8 && (c.tag != 0 || (c.value as usize) < VARIABLES)
}

// Whether all cells have their place.
fn all_fit(cells: &[Cell]) -> bool
    ensures { result ≡ all_fit cells.now }
{
    cells.iter().all(|c| is_fit(*c))
}

impl Arena {
    // No cells.
    pub fn new(heap: Global) -> Result<Arena, AllocError>
        ensures { IfOk result (λ a. cells_in a ≡ []) }
    {
        let cells = Vec::with_capacity(heap, ARENA)?;
        Ok(Arena { cells })
    }

    // How many cells there are.
    pub fn len(&self) -> usize
        ensures value { result ≡ length (cells_in self.now) }
        ensures few { result ≤ 1568 }
    {
        self.cells.len()
    }

    // The cell at a place.
    pub fn cell(&self, place: usize) -> Option<Cell>
        ensures { result ≡ cell_at (cells_in self.now) place }
    {
        self.cells.get(place).copied()
    }

    // The place after the term at a place.
    pub fn end_of(&self, place: usize) -> usize
        ensures value { result ≡ after (cells_in self.now) place }
        ensures past { place < length (cells_in self.now) → place < result }
        ensures within { place ≤ length (cells_in self.now) → result ≤ length (cells_in self.now) }
    {
        // the place and the count of terms to come go on together, and either may end the loop
        let mut need: usize = 1;
        let mut at = place;
        let cells = self.cells.as_slice();
        while need > 0 && at < cells.len() {
            need = need - 1 + cells[at].arity as usize;
            at += 1;
        }
        at
    }

    // The node of the term at a place.
    pub fn node(&self, place: usize) -> usize
        ensures value { result ≡ node_at (cells_in self.now) place }
        ensures named { result < 2624 }
    {
        match self.cell(place) {
            Some(c) if c.tag != 0 => place,
            Some(c) => ARENA + c.value as usize,
            None => ARENA,
        }
    }

    // The nodes of n terms from a place on.
    pub fn arguments(&self, place: usize, n: usize) -> Arguments<'_>
        ensures { rest_of result ≡ arguments (cells_in self.now) n place }
    {
        Arguments {
            arena: self,
            place,
            left: n,
        }
    }

    // Whether a function's cell stands at a node.
    pub fn is_function(&self, node: usize) -> bool
        ensures { result ≡ (nat_lt node (length (cells_in self.now)) && (slice_index_or (cells_in self.now) node blank).tag == 2) }
    {
        node < self.cells.len() && self.cells[node].tag == 2
    }

    // The arity of the cell at a place.
    pub fn arity(&self, place: usize) -> usize
        requires { place < length (cells_in self.now) }
        ensures value { result ≡ (slice_index_or (cells_in self.now) place blank).arity }
        ensures small { result ≤ 8 }
    {
        self.cells[place].arity as usize
    }

    // The place where the cells now stand, after those before; none, and nothing changes, where they do not fit.
    pub fn append(&mut self, cells: &[Cell]) -> Option<usize>
        ensures value { result ≡ (if takes (cells_in self.old) cells.now then Some (length (cells_in self.old)) else None) }
        ensures cells { cells_in self.new ≡ (if takes (cells_in self.old) cells.now then cells_in self.old ++ cells.now else cells_in self.old) }
    {
        let at = self.len();
        if cells.len() > ARENA - at || !all_fit(cells) {
            return None;
        }
        let Ok(()) = self.cells.extend_from_slice(cells) else {
            unreachable()
        };
        Some(at)
    }

    // Takes back the cells that came after the first `to`.
    pub fn truncate(&mut self, to: usize)
        ensures { cells_in self.new ≡ take to (cells_in self.old) }
    {
        self.cells.truncate(to);
    }
}
