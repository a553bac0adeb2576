// The whole tree of a question.
ghost use Rattle.std.specs.Prelude.{◌≡◌, ℕ, ◌<◌, ◌≤◌, true, List, [], length, vec_len, MatchResult};
ghost use Rattle.typing.specs.Terms.{Eqs};
ghost use Rattle.trees.specs.Tree.{Goal, Program, Tree, IsTree, steps as treeSteps};
ghost use Rattle.trees.specs.Summaries.{summary};
ghost use Rattle.programs.specs.Spelling.{spell_goals, Spells};
ghost use Rattle.unification.specs.State.{cells_of, links_of};
ghost use Rattle.unification.specs.Standing.{Standing};
ghost use Rattle.verdicts.specs.Leaves.{Few};
ghost use Rattle.frames.specs.Asked.{Sized};
ghost use Rattle.frames.specs.Owed.{Tallied};
ghost use Rattle.resolution.specs.State.{memory, shortest};

use super::{Machine, Progress, Task};
use clauses::Source;
use frames::{Frame, Node};
use terms::Cell;
use terms::signature::Signature;
use unification::stack::Stack;
use unification::{Outcome, Pair};
use verdicts::Refusal;
use verdicts::ending::{Leaves, Tally};

// No leaf and no step.
const NOTHING_YET: Tally = Tally {
    leaves: Leaves {
        uses: None,
        cut: false,
        wrong: true,
    },
    steps: 0,
};

impl Machine {
    // The whole tree of a question that has been judged: what its leaves say, and its steps. Afterwards the equations stand as they did.
    pub(crate) fn whole_tree<'a, P: Source, K: Signature>(
        &mut self,
        task: &Task<'_, P, K>,
        question: &[Cell],
        pairs: &'a mut [Pair],
        frames: &'a mut [Frame],
    ) -> Result<Tally, Refusal>
        requires judged { Sized question.now (length pairs.old) (length frames.old) }
        requires few { length (cells_of self.old.bindings) ≤ 512 }
        requires idle { vec_len self.old.waiting ≡ 0 }
        ensures within { MatchResult result (λ t. (t.steps ≤ task.now.settings.allowance) × Few t.leaves) (λ e. e ≡ Refusal.Allowance) }
        ensures tree { (prog : Program) (gs : List Goal) (E : Eqs) (t : Tree) → Spells prog (P.Source.clauses task.now.source.now) → question.now ≡ spell_goals gs → Standing (K.Signature.kind task.now.kinds.now) (cells_of self.old.bindings) (links_of self.old.bindings) E → IsTree prog (K.Signature.kind task.now.kinds.now) task.now.settings.limit true gs E 0 t → MatchResult result (λ tally. Tallied tally (shortest self.new) (summary [] t)) (λ _. task.now.settings.allowance < treeSteps t) × (memory self.new ≡ memory self.old) }
        ensures few { length (cells_of self.new.bindings) ≤ length (cells_of self.old.bindings) }
        ensures idle { vec_len self.new.waiting ≡ 0 }
    {
        let before = self.bindings.snapshot();
        let Some(place) = self.bindings.append(question) else {
            unreachable()
        };
        let root = Node::root(self.list_goals(place, None));
        let mut progress = Progress {
            pairs,
            frames: Stack::new(frames),
            tally: NOTHING_YET,
        };
        self.arrive(task.settings, &mut progress, root, Outcome::Solved);
        let result = self.walk(task, &mut progress);
        self.bindings.roll_back(before);
        self.waiting.clear();
        result
    }
}
