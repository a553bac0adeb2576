// One step of a branch: a clause is written with new variables, and the goal is unified with its head.
ghost use Rattle.std.specs.Prelude.{◌≡◌, ℕ, ◌+◌, ◌-◌, ◌*◌, ◌<◌, ◌≤◌, Bool, true, false, List, [], ◌∷◌, ◌++◌, length, take, IfSome, ◌≢◌, vec_len};
ghost use Rattle.unification.specs.State.{cells_of, links_of, trail_of};
ghost use Rattle.verdicts.specs.Leaves.{flag_after};
ghost use Rattle.frames.specs.Memory.{back};
ghost use Rattle.frames.specs.Steps.{Resolved};
ghost use Rattle.resolution.specs.State.{memory, branch, shortest, Fits};
ghost use Rattle.frames.specs.Frames.{cells_at, waiting_at, Roomy, list_at, Fetched, trodden_after};

use super::Machine;
use crate::search::ask::MOST_CELLS;
use clauses::{Predicate, Source};
use frames::{Frame, Node, Waiting, moves};
use terms::Cell;
use terms::signature::Signature;
use unification::{Bindings, Outcome, Pair};

// Writes a clause of a predicate after the cells, its variables numbered from 32 + 32 · step on, as no other step's are: the place of its head.
// None, and nothing changes, where the predicate has no clause of that number.
fn fetch<P: Source>(
    source: &P,
    bindings: &mut Bindings,
    predicate: Predicate,
    clause: usize,
    step: u8,
) -> Option<usize>
    requires early { step < 32 }
    requires roomy { length (cells_of bindings.old) ≤ cells_at step }
    ensures fetched { Fetched (P.Source.clauses source.now predicate.symbol predicate.arity) clause step (cells_of bindings.old) (cells_of bindings.new) result }
    ensures links { links_of bindings.new ≡ links_of bindings.old }
    ensures trail { trail_of bindings.new ≡ trail_of bindings.old }
{
    let mut buffer = [Cell::default(); MOST_CELLS];
    let base = moves::base_of(step);
    let Ok(n) = source.write(predicate, clause, base, &mut buffer, 0) else {
        return None;
    };
    bindings.append(&buffer[..n])
}

// The same for the predicate of the goal of a frame, and the frame's next clause.
pub(super) fn load<P: Source>(
    source: &P,
    bindings: &mut Bindings,
    goal: Waiting,
    frame: Frame,
) -> Option<usize>
    requires early { frame.node.step < 32 }
    requires roomy { length (cells_of bindings.old) ≤ cells_at frame.node.step }
    ensures fetched { Fetched (list_at (P.Source.clauses source.now) (cells_of bindings.old) goal.goal) frame.clause frame.node.step (cells_of bindings.old) (cells_of bindings.new) result }
    ensures links { links_of bindings.new ≡ links_of bindings.old }
    ensures trail { trail_of bindings.new ≡ trail_of bindings.old }
{
    let predicate = Predicate::of(bindings.cell(goal.goal)?);
    fetch(source, bindings, predicate, frame.clause, frame.node.step)
}

impl Machine {
    // Takes back what was done since the frame was made, or since its last clause was tried.
    pub(super) fn go_back(&mut self, frame: Frame)
        ensures memory { memory self.new ≡ back (memory self.old) frame }
        ensures cells { cells_of self.new.bindings ≡ take frame.bindings.cells (cells_of self.old.bindings) }
        ensures waiting { self.new.waiting.items ≡ take frame.waiting self.old.waiting.items }
        ensures branch { (branch self.new ≡ branch self.old) × (shortest self.new ≡ shortest self.old) }
        ensures few { (length (cells_of self.new.bindings) ≤ frame.bindings.cells) × (vec_len self.new.waiting ≤ frame.waiting) }
    {
        self.bindings.roll_back(frame.bindings);
        self.waiting.truncate(frame.waiting);
    }

    // The node after a step from a goal, and the step's outcome. With a clause, whose head stands at a place, solved puts the body before the other goals
    // and keeps the new equations; otherwise the goal is dropped, the old equations stand, and the flag is false. A goal without clauses is dropped too.
    pub(super) fn resolve<K: Signature>(
        &mut self,
        kinds: &K,
        pairs: &mut [Pair],
        frame: Frame,
        goal: Waiting,
        head: Option<usize>,
    ) -> (Node, Outcome)
        requires scratch { 12864 ≤ length pairs.old }
        requires roomy { Roomy frame }
        requires clause { IfSome head (λ h. (frame.clause < 65535) × (length (cells_of self.old.bindings) ≤ h + 32)) }
        requires cells { length (cells_of self.old.bindings) ≤ cells_at (frame.node.step + 1) }
        requires waiting { vec_len self.old.waiting ≤ waiting_at frame.node.step }
        ensures step { result.0.step ≡ frame.node.step + 1 }
        ensures flag { result.0.flag ≡ flag_after result.1 frame.node.flag }
        ensures dropped { result.1 ≢ Outcome.Solved → result.0.goals ≡ goal.rest }
        ensures resolved { Resolved (K.Signature.kind kinds.now) frame goal head (memory self.old) (memory self.new) result.0 result.1 }
        ensures shortest { shortest self.new ≡ shortest self.old }
        ensures trodden { branch self.new ≡ trodden_after head (branch self.old) frame.node.step frame.clause }
        ensures fits { Fits self.new (frame.node.step + 1) }
    {
        let Some(head) = head else {
            return (frame.after_drop(goal), Outcome::False);
        };
        let Some(outcome) = self.bindings.unify(kinds, goal.goal, head, pairs) else {
            unreachable()
        };
        self.trodden[frame.node.step as usize] = frame.clause as u16;
        match outcome {
            Outcome::Solved => {
                let body = self.bindings.end_of(head);
                let node = Node {
                    goals: self.list_goals(body, goal.rest),
                    step: frame.node.step + 1,
                    ..frame.node
                };
                (node, outcome)
            }
            Outcome::False | Outcome::Wrong => {
                self.bindings.roll_back(frame.bindings);
                (frame.after_drop(goal), outcome)
            }
        }
    }
}
