// Goal lists: the goals that wait.
ghost use Rattle.std.specs.Prelude.{◌≡◌, ℕ, ◌+◌, ◌-◌, ◌<◌, ◌≤◌, List, [], ◌∷◌, ◌++◌, length, take, drop, IfOk, IfSome, vec_len, vec_capacity, MatchOption};
ghost use Rattle.graphs.specs.Links.{roots};
ghost use Rattle.unification.specs.State.{cells_of, links_of, trail_of};
ghost use Rattle.trees.specs.Tree.{Goal};
ghost use Rattle.programs.specs.Spelling.{spell_goals};
ghost use Rattle.frames.specs.Goals.{First, Lists};

use super::{MOST_USES, Machine};
use frames::Waiting;
use std::alloc::{AllocError, Global};
use unification::Bindings;

// The question and each of 32 steps make at most 32 goals wait, as many as there are cells, which is 1,056; and there is room for one list more.
const MOST_WAITING: usize = 1088;

impl Machine {
    // No equations. All memory is taken here.
    pub fn new(heap: Global) -> Result<Machine, AllocError>
        ensures { IfOk result (λ m. (cells_of m.bindings ≡ []) × (links_of m.bindings ≡ roots 0 2624) × (trail_of m.bindings ≡ []) × (m.waiting.items ≡ [])) }
    {
        let bindings = Bindings::new(heap)?;
        let waiting = Vec::with_capacity(heap, MOST_WAITING)?;
        Ok(Machine {
            bindings,
            waiting,
            trodden: [0; MOST_USES],
            best: [0; MOST_USES],
        })
    }

    // The first goal of a list, by its place, and the list of those after it.
    pub(super) fn first(&self, goals: Option<usize>) -> Option<Waiting>
        ensures { MatchOption result (IfSome goals (λ place. vec_len self.now.waiting ≤ place)) (First self.now.waiting.items goals) }
    {
        self.waiting.get(goals?).copied()
    }

    // The list of the goals from a place of the cells on, and after them the rest. It calls itself once for each goal, and so at most 32 deep, as many
    // as a clause or a question has cells.
    pub(super) fn list_goals(&mut self, place: usize, rest: Option<usize>) -> Option<usize>
        requires space { vec_len self.old.waiting + (length (cells_of self.old.bindings) - place) ≤ 1088 }
        ensures bindings { self.new.bindings ≡ self.old.bindings }
        ensures branch { (self.new.trodden ≡ self.old.trodden) × (self.new.best ≡ self.old.best) }
        ensures kept { take (vec_len self.old.waiting) self.new.waiting.items ≡ self.old.waiting.items }
        ensures few { vec_len self.new.waiting ≤ vec_len self.old.waiting + (length (cells_of self.old.bindings) - place) }
        ensures lists { (bs gs : List Goal) → drop place (cells_of self.old.bindings) ≡ spell_goals bs → Lists (cells_of self.old.bindings) self.old.waiting.items rest gs → Lists (cells_of self.old.bindings) self.new.waiting.items result (bs ++ gs) }
    {
        if place >= self.bindings.len() {
            return rest;
        }
        let next = self.bindings.end_of(place);
        let after = self.list_goals(next, rest);
        let first = self.waiting.len();
        self.waiting.push_reserved(Waiting {
            goal: place,
            rest: after,
        });
        Some(first)
    }
}
