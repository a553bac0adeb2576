// The standing equations, solved together.
ghost use Rattle.std.specs.Prelude.{◌≡◌, ◌≤◌, [], length, Ok, IfOk};
ghost use Rattle.graphs.specs.Links.{roots};
ghost use Rattle.resolution.specs.State.{standing_cells, standing_links, standing_trail};
ghost use Rattle.store.specs.Model.{entries_of};
ghost use Rattle.store.specs.Calls.{AskedBy, ReadBy};
ghost use Rattle.store.specs.Judged.{judged_question};
ghost use Rattle.store.specs.Solved.{Stood};

use crate::Refusal;
use crate::base::Base;
use crate::solver::Solver;
use crate::table::Table;
use clauses::ProgramSource;
use frames::Frame;
use resolution::search::Search;
use std::alloc::{AllocError, Global};
use terms::Cell;
use terms::signature::Signature;
use unification::{Outcome, Pair};
use verdicts::Answer;

impl Solver {
    // Nothing stands. All memory is taken here.
    pub(crate) fn new(heap: Global) -> Result<Solver, AllocError>
        ensures { IfOk result (λ s. (standing_cells s.search ≡ []) × (standing_links s.search ≡ roots 0 2624) × (standing_trail s.search ≡ [])) }
    {
        let search = Search::new(heap)?;
        Ok(Solver { search })
    }

    // The outcome of the standing equations, all together; where it is solved, they stand in the search.
    pub(crate) fn stand<G: Signature>(
        &mut self,
        table: &Table,
        signature: &G,
        pairs: &mut [Pair],
    ) -> Outcome
        requires { 12864 ≤ length pairs.old }
        ensures { Stood (G.Signature.kind signature.now) (entries_of table.now) (standing_cells self.new.search) (standing_links self.new.search) result }
    {
        self.search.clear();
        let Some(_) = self.search.append(table.cells()) else {
            unreachable()
        };
        let Some(outcome) = self.search.settle(signature, table.places(), pairs) else {
            unreachable()
        };
        outcome
    }

    // The answer to a question under the standing equations, after what is handed in has been judged: the search then refuses for the path slice or the allowance alone.
    pub(crate) fn ask<P: ProgramSource, G: Signature>(
        &mut self,
        table: &Table,
        base: &Base<P, G>,
        question: &[Cell],
        pairs: &mut [Pair],
        frames: &mut [Frame],
        path: &mut [u16],
    ) -> Result<Answer, Refusal>
        requires { judged_question question.now (length pairs.old) (length frames.old) ≡ Ok tt }
        ensures { AskedBy (Ok tt) (P.Source.clauses base.now.source) (G.Signature.kind base.now.signature) base.now.settings.limit base.now.settings.allowance question.now (entries_of table.now) path.old path.new result }
    {
        let Outcome::Solved = self.stand(table, &base.signature, pairs) else {
            return Err(Refusal::NotSolved);
        };
        self.search
            .ask(
                &base.source,
                &base.signature,
                base.settings,
                question,
                pairs,
                frames,
                path,
            )
            .map_err(Refusal::from)
    }

    // Writes a variable's term under the standing equations, which have to be solved as for a question, from the start of the slice, and tells how many cells that are.
    pub(crate) fn read<G: Signature>(
        &mut self,
        table: &Table,
        signature: &G,
        variable: u32,
        pairs: &mut [Pair],
        out: &mut [Cell],
    ) -> Result<usize, Refusal>
        requires { 12864 ≤ length pairs.old }
        ensures { ReadBy (Ok tt) (G.Signature.kind signature.now) (entries_of table.now) variable out.old out.new result }
    {
        let Outcome::Solved = self.stand(table, signature, pairs) else {
            return Err(Refusal::NotSolved);
        };
        self.search.read(variable, out).ok_or(Refusal::OutputShort)
    }
}
