ghost use Rattle.std.specs.Prelude.{◌≡◌, ◌<◌, ◌≤◌, [], ◌++◌, length, take, drop, is_some, IfSome, IfOk, if◌then◌else◌, Some, None, MatchOption, nat_le};
ghost use Rattle.graphs.specs.Links.{roots, restore, Logged};
ghost use Rattle.graphs.specs.Cells.{after};
ghost use Rattle.unification.specs.Held.{held, count, room};
ghost use Rattle.unification.specs.Run.{Ready};
ghost use Rattle.unification.specs.Outcomes.{Tells, Leads, TellsNext, LeadsNext, Settles, outcome_of};
ghost use Rattle.unification.specs.Standing.{Unified};
ghost use Rattle.unification.specs.State.{cells_of, links_of, trail_of, takes, cell_at};

use super::Bindings;
use crate::arena::Arena;
use crate::links::Links;
use crate::stack::Stack;
use crate::walk::Mark;
use crate::{ARENA, Outcome, SCRATCH, Snapshot, solve, walk};
use graphs::Pair;
use std::alloc::{AllocError, Global};
use terms::Cell;
use terms::signature::Signature;

// The outcome where kinds fit: whether no constants differ.
fn outcome_of(equal: bool) -> Outcome
    ensures { result ≡ outcome_of equal }
{
    if equal {
        Outcome::Solved
    } else {
        Outcome::False
    }
}

impl Bindings {
    // No cells, and every node its own root.
    pub fn new(heap: Global) -> Result<Bindings, AllocError>
        ensures { IfOk result (λ b. (cells_of b ≡ []) × (links_of b ≡ roots 0 2624) × (trail_of b ≡ [])) }
    {
        let arena = Arena::new(heap)?;
        let links = Links::new(heap)?;
        let marks = Vec::from_elem(heap, Mark::Unseen, ARENA)?;
        Ok(Bindings {
            arena,
            links,
            marks,
        })
    }

    // How many cells there are.
    pub fn len(&self) -> usize
        ensures { result ≡ length (cells_of self.now) }
    {
        self.arena.len()
    }

    // The cell at a place.
    pub fn cell(&self, place: usize) -> Option<Cell>
        ensures { result ≡ cell_at (cells_of self.now) place }
    {
        self.arena.cell(place)
    }

    // The place after the term at a place.
    pub fn end_of(&self, place: usize) -> usize
        ensures value { result ≡ after (cells_of self.now) place }
        ensures past { place < length (cells_of self.now) → place < result }
        ensures within { place ≤ length (cells_of self.now) → result ≤ length (cells_of self.now) }
    {
        self.arena.end_of(place)
    }

    // The place where the cells now stand, after those before; none, and nothing changes, where they do not fit.
    pub fn append(&mut self, cells: &[Cell]) -> Option<usize>
        ensures value { result ≡ (if takes (cells_of self.old) cells.now then Some (length (cells_of self.old)) else None) }
        ensures cells { cells_of self.new ≡ (if takes (cells_of self.old) cells.now then cells_of self.old ++ cells.now else cells_of self.old) }
        ensures links { links_of self.new ≡ links_of self.old }
        ensures trail { trail_of self.new ≡ trail_of self.old }
    {
        self.arena.append(cells)
    }

    // The state to roll back to.
    pub fn snapshot(&self) -> Snapshot
        ensures cells { result.cells ≡ length (cells_of self.now) }
        ensures trail { result.trail ≡ length (trail_of self.now) }
    {
        Snapshot {
            cells: self.len(),
            trail: self.links.len(),
        }
    }

    // Takes back the links and the cells that came since.
    pub fn roll_back(&mut self, to: Snapshot)
        ensures cells { cells_of self.new ≡ take to.cells (cells_of self.old) }
        ensures links { links_of self.new ≡ restore (links_of self.old) (drop to.trail (trail_of self.old)) }
        ensures trail { trail_of self.new ≡ take to.trail (trail_of self.old) }
    {
        self.links.undo(to.trail);
        self.arena.truncate(to.cells);
    }

    // The equation between the terms at two places, added to those that stand. None, and nothing changes, where the slice is too short.
    // Unless it is solved, the links stay as they were.
    pub fn unify<S: Signature>(
        &mut self,
        signature: &S,
        left: usize,
        right: usize,
        scratch: &mut [Pair],
    ) -> Option<Outcome>
        ensures some { is_some result ≡ nat_le 12864 (length scratch.old) }
        ensures cells { cells_of self.new ≡ cells_of self.old }
        ensures settles { MatchOption result ((links_of self.new ≡ links_of self.old) × (trail_of self.new ≡ trail_of self.old)) (λ o. Settles (links_of self.old) (trail_of self.old) (links_of self.new) (trail_of self.new) o) }
        ensures tells { IfSome result (λ o. TellsNext (S.Signature.kind signature.now) (cells_of self.old) (links_of self.old) left right (links_of self.new) o) }
        ensures leads { IfSome result (λ o. LeadsNext (S.Signature.kind signature.now) (cells_of self.old) (links_of self.old) left right (links_of self.new) o) }
        ensures means { IfSome result (λ o. Unified (S.Signature.kind signature.now) (cells_of self.old) (links_of self.old) left right (links_of self.new) o) }
    {
        if scratch.len() < SCRATCH {
            return None;
        }
        let mut pairs = Stack::new(scratch);
        solve::push_equation(&self.arena, &mut pairs, left, right);
        Some(self.settle(signature, &mut pairs))
    }

    // The outcome of the stacked pairs, added to what stands. Unless they are solved, the links stay as they were.
    pub(super) fn settle<S: Signature>(
        &mut self,
        signature: &S,
        pairs: &mut Stack<'_, Pair>,
    ) -> Outcome
        requires { Ready (cells_of self.old) (links_of self.old) (held pairs.old) (count pairs.old) (room pairs.old) }
        ensures cells { cells_of self.new ≡ cells_of self.old }
        ensures settles { Settles (links_of self.old) (trail_of self.old) (links_of self.new) (trail_of self.new) result }
        ensures tells { Tells (S.Signature.kind signature.now) (cells_of self.old) (links_of self.old) (held pairs.old) (links_of self.new) result }
        ensures leads { Leads (S.Signature.kind signature.now) (cells_of self.old) (links_of self.old) (held pairs.old) (links_of self.new) result }
    {
        let before = self.links.len();
        let outcome = self.solve(signature, pairs);
        if outcome != Outcome::Solved {
            self.links.undo(before);
        }
        outcome
    }

    // The same, with the links left as the solver made them. The walk is left out where no function was linked or bound: then none
    // that contains itself can have come.
    fn solve<S: Signature>(&mut self, signature: &S, pairs: &mut Stack<'_, Pair>) -> Outcome
        requires { Ready (cells_of self.old) (links_of self.old) (held pairs.old) (count pairs.old) (room pairs.old) }
        ensures cells { cells_of self.new ≡ cells_of self.old }
        ensures logged { Logged (links_of self.old) (trail_of self.old) (links_of self.new) (trail_of self.new) }
        ensures tells { Tells (S.Signature.kind signature.now) (cells_of self.old) (links_of self.old) (held pairs.old) (links_of self.new) result }
        ensures leads { Leads (S.Signature.kind signature.now) (cells_of self.old) (links_of self.old) (held pairs.old) (links_of self.new) result }
    {
        let before = self.links.len();
        let Some(tally) = solve::solve(signature, &self.arena, &mut self.links, pairs) else {
            return Outcome::Wrong;
        };
        let linked = self.links.linked_since(before);
        let marks = self.marks.as_mut_slice();
        if !walk::stays_acyclic(tally.deep, &self.arena, &self.links, linked, marks) {
            return Outcome::Wrong;
        }
        outcome_of(tally.equal)
    }
}
