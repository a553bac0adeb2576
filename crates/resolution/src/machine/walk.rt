// The walk of the whole tree, depth first, on a stack of frames.
ghost use Rattle.std.specs.Prelude.{◌≡◌, ℕ, ◌+◌, ◌<◌, ◌≤◌, List, [], ◌∷◌, length, is_some, Some, vec_len, IfOk, MatchResult};
ghost use Rattle.unification.specs.Held.{held, count};
ghost use Rattle.verdicts.specs.Leaves.{state_of, ending_of, Few};
ghost use Rattle.typing.specs.Terms.{Signature as Kinds};
ghost use Rattle.trees.specs.Tree.{Program};
ghost use Rattle.trees.specs.Summaries.{Summary};
ghost use Rattle.programs.specs.Spelling.{Spells};
ghost use Rattle.frames.specs.Memory.{Memory, Grown};
ghost use Rattle.frames.specs.Owed.{Underway, Arrives, Tallied, best_after, tally_after};
ghost use Rattle.frames.specs.Frames.{Roomy, turns};
ghost use Rattle.resolution.specs.State.{memory, branch, shortest, Fits, OnTheWay};

use super::{Machine, Progress, Task, step};
use clauses::Source;
use frames::{Frame, Node, moves};
use terms::signature::Signature;
use unification::Outcome;
use verdicts::ending::{Ending, Leaves, Tally};
use verdicts::settings::Settings;
use verdicts::{Refusal, ending};

impl Machine {
    // Keeps the branch as the path of the shortest success, where its end is one.
    fn keep_path(&mut self, end: Ending, leaves: Leaves, step: u8)
        ensures memory { memory self.new ≡ memory self.old }
        ensures branch { branch self.new ≡ branch self.old }
        ensures best { shortest self.new ≡ best_after (Some end) leaves step (branch self.old) (shortest self.old) }
    {
        if end == Ending::Success && leaves.is_shorter(step) {
            self.best = self.trodden;
        }
    }

    // What becomes of a node that was reached by a step of this outcome: a leaf, which is noted, or a frame for its leftmost goal.
    pub(super) fn arrive(
        &mut self,
        settings: Settings,
        progress: &mut Progress<'_>,
        node: Node,
        outcome: Outcome,
    )
        requires below { count progress.old.frames ≤ node.step }
        requires early { node.step ≤ 32 }
        requires fits { Fits self.old node.step }
        ensures tally { progress.new.tally ≡ tally_after (ending_of node.flag (state_of (is_some node.goals) node.step settings.limit) outcome) progress.old.tally node.step }
        ensures arrives { (home : Memory) (prog : Program) (kind : Kinds) (whole : Summary) → Arrives home prog kind settings.limit whole (memory self.old) (branch self.old) (shortest self.old) (held progress.old.frames) progress.old.tally node outcome → OnTheWay home prog kind settings.limit whole self.new progress.new }
        ensures count { count progress.new.frames ≤ count progress.old.frames + 1 }
    {
        let left = ending::goals_left(node.goals.is_some(), node.step, settings.limit());
        match ending::branch_ending(node.flag, left, outcome) {
            None => progress.frames.put(Frame {
                node,
                clause: 0,
                bindings: self.bindings.snapshot(),
                waiting: self.waiting.len(),
            }),
            Some(end) => {
                self.keep_path(end, progress.tally.leaves, node.step);
                progress.tally.leaves = progress.tally.leaves.note(Some(end), node.step);
            }
        }
    }

    // The next clause of a frame: one step, unless all clauses have been tried. A goal without clauses is dropped, which is a step too.
    fn turn<P: Source, K: Signature>(
        &mut self,
        task: &Task<'_, P, K>,
        progress: &mut Progress<'_>,
        frame: Frame,
    ) -> Result<(), Refusal>
        requires roomy { Roomy frame }
        requires below { count progress.old.frames ≤ frame.node.step }
        requires within { progress.old.tally.steps ≤ task.now.settings.allowance }
        ensures within { MatchResult result (λ _. progress.new.tally.steps ≤ task.now.settings.allowance) (λ e. e ≡ Refusal.Allowance) }
        ensures nearer { IfOk result (λ _. turns task.now.settings.allowance progress.new.tally.steps (count progress.new.frames) ≤ turns task.now.settings.allowance progress.old.tally.steps (count progress.old.frames)) }
        ensures underway { (home : Memory) (prog : Program) (whole : Summary) → Spells prog (P.Source.clauses task.now.source.now) → Underway home prog (K.Signature.kind task.now.kinds.now) task.now.settings.limit whole (memory self.old) (branch self.old) (shortest self.old) (frame ∷ held progress.old.frames) progress.old.tally → MatchResult result (λ _. OnTheWay home prog (K.Signature.kind task.now.kinds.now) task.now.settings.limit whole self.new progress.new) (λ _. (task.now.settings.allowance < whole.edges) × Grown home (memory self.new)) }
    {
        self.go_back(frame);
        let Some(goal) = self.first(frame.node.goals) else {
            return Ok(());
        };
        let head = step::load(task.source, &mut self.bindings, goal, frame);
        if head.is_none() && frame.clause > 0 {
            return Ok(());
        }
        if moves::is_spent(task.settings, progress.tally) {
            return Err(Refusal::Allowance);
        }
        progress.tally = moves::one_more(progress.tally);
        progress.frames.put(frame.next_clause());
        let (node, outcome) = self.resolve(task.kinds, progress.pairs, frame, goal, head);
        self.arrive(task.settings, progress, node, outcome);
        Ok(())
    }

    // All frames, until none is left or the allowance is spent.
    pub(super) fn walk<P: Source, K: Signature>(
        &mut self,
        task: &Task<'_, P, K>,
        progress: &mut Progress<'_>,
    ) -> Result<Tally, Refusal>
        requires within { progress.old.tally.steps ≤ task.now.settings.allowance }
        ensures within { MatchResult result (λ t. (t.steps ≤ task.now.settings.allowance) × Few t.leaves) (λ e. e ≡ Refusal.Allowance) }
        ensures walked { (home : Memory) (prog : Program) (whole : Summary) → Spells prog (P.Source.clauses task.now.source.now) → OnTheWay home prog (K.Signature.kind task.now.kinds.now) task.now.settings.limit whole self.old progress.old → MatchResult result (λ t. Tallied t (shortest self.new) whole × Grown home (memory self.new)) (λ _. (task.now.settings.allowance < whole.edges) × Grown home (memory self.new)) }
    {
        while let Some(frame) = progress.frames.pop() {
            self.turn(task, progress, frame)?;
        }
        Ok(progress.tally)
    }
}
