// The question that a search is asked.
ghost use Rattle.std.specs.Prelude.{◌≡◌, ℕ, ◌+◌, ◌<◌, ◌≤◌, List, [], length, take, drop, IfOk, Some, None, MatchResult};
ghost use Rattle.clauses.specs.Clauses.{OfPredicates};
ghost use Rattle.typing.specs.Terms.{Eqs};
ghost use Rattle.graphs.specs.Links.{roots};
ghost use Rattle.unification.specs.Standing.{Standing};
ghost use Rattle.resolution.specs.State.{memory, standing_cells, standing_links, standing_trail};
ghost use Rattle.frames.specs.Asked.{judged, judged_scratch, judged_goals, PathOf, Bounded, Asked};

use super::Search;
use crate::machine::{MOST_USES, Machine, Task};
use clauses::Source;
use frames::Frame;
use std::alloc::{AllocError, Global};
use terms::signature::Signature;
use terms::{Cell, check};
use unification::{Pair, SCRATCH};
use verdicts::settings::Settings;
use verdicts::{Answer, Refusal, Verdict};

// The scratch that a caller lends, and the places of a path.
pub const PAIRS: usize = SCRATCH;

pub const FRAMES: usize = 512;

pub const PATH: usize = MOST_USES;

// A clause or a question has at most so many cells, and a question so many goals.
pub const MOST_CELLS: usize = 32;

const MOST_GOALS: usize = 8;

// Refuses too little scratch.
pub fn scratch(pairs: &[Pair], frames: &[Frame]) -> Result<(), Refusal>
    ensures { result ≡ judged_scratch (length pairs.now) (length frames.now) }
{
    if pairs.len() < PAIRS || frames.len() < FRAMES {
        return Err(Refusal::ScratchShort);
    }
    Ok(())
}

// Refuses cells that are no question: no goal list, a variable above 31, too many cells or goals.
pub fn question(cells: &[Cell]) -> Result<(), Refusal>
    ensures { result ≡ judged_goals cells.now }
{
    let goals = check::goal_count(cells).ok_or(Refusal::NoGoalList)?;
    if !check::low_variables(cells) {
        return Err(Refusal::NoGoalList);
    }
    if cells.len() > MOST_CELLS || goals > MOST_GOALS {
        return Err(Refusal::TooLarge);
    }
    Ok(())
}

// The first of the refusals of a call, in the order in which they are judged.
fn judge(cells: &[Cell], pairs: &[Pair], frames: &[Frame], path: &[u16]) -> Result<(), Refusal>
    ensures { MatchResult result (λ _. judged cells.now (length pairs.now) (length frames.now) (length path.now) ≡ None) (λ e. judged cells.now (length pairs.now) (length frames.now) (length path.now) ≡ Some e) }
{
    scratch(pairs, frames)?;
    question(cells)?;
    if path.len() < PATH {
        return Err(Refusal::PathShort);
    }
    Ok(())
}

impl Search {
    // No equations stand. All memory is taken here.
    pub fn new(heap: Global) -> Result<Search, AllocError>
        ensures { IfOk result (λ s. (standing_cells s ≡ []) × (standing_links s ≡ roots 0 2624) × (standing_trail s ≡ []) × (s.machine.waiting.items ≡ [])) }
    {
        let machine = Machine::new(heap)?;
        Ok(Search { machine })
    }

    // The answer to a question under the equations that stand, which stand afterwards as they did, from a source whose lists spell a program.
    // With holds, the path of the shortest success stands in the first places of the slice, and the rest of the slice is unchanged; without holds, and
    // where the question is refused, all of it is.
    pub fn ask<P: Source, K: Signature>(
        &mut self,
        source: &P,
        kinds: &K,
        settings: Settings,
        question: &[Cell],
        pairs: &mut [Pair],
        frames: &mut [Frame],
        path: &mut [u16],
    ) -> Result<Answer, Refusal>
        ensures asked { OfPredicates (P.Source.clauses source.now) → (E : Eqs) → Standing (K.Signature.kind kinds.now) (standing_cells self.old) (standing_links self.old) E → Asked (judged question.now (length pairs.old) (length frames.old) (length path.old)) (P.Source.clauses source.now) (K.Signature.kind kinds.now) settings.limit settings.allowance question.now E path.old path.new result }
        ensures restored { OfPredicates (P.Source.clauses source.now) → (E : Eqs) → Standing (K.Signature.kind kinds.now) (standing_cells self.old) (standing_links self.old) E → memory self.new.machine ≡ memory self.old.machine }
        ensures bounded { Bounded (judged question.now (length pairs.old) (length frames.old) (length path.old)) settings.allowance result }
        ensures path { PathOf result path.old path.new }
    {
        judge(question, pairs, frames, path)?;
        let task = Task {
            source,
            kinds,
            settings,
        };
        let tally = self.machine.whole_tree(&task, question, pairs, frames)?;
        let verdict = tally.leaves.verdict();
        if let Verdict::Holds(uses) = verdict {
            write_path(&self.machine.best, uses as usize, path);
        }
        Ok(Answer {
            verdict,
            steps: tally.steps,
        })
    }
}

// Copies the first n places of the path.
fn write_path(best: &[u16], n: usize, path: &mut [u16])
    requires best { n ≤ length best.now }
    requires path { n ≤ length path.old }
    ensures written { take n path.new ≡ take n best.now }
    ensures kept { drop n path.new ≡ drop n path.old }
{
    path[..n].copy_from_slice(&best[..n]);
}
