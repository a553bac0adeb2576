// A store, and its calls.
ghost use Rattle.std.specs.Prelude.{◌≡◌, ◌<◌, ◌≤◌, length, IfOk, OnErr};
ghost use Rattle.store.specs.Model.{model_of, opened};
ghost use Rattle.store.specs.Calls.{Entered, Marked, Ended, Kept, TakenBack, Asked, ReadOut, slip_of, ended_of, Returned};

use crate::base::Base;
use crate::solver::Solver;
use crate::table::Table;
use crate::token::{Slip, Token};
use crate::{MOST_MARKS, Refusal, judge};
use clauses::ProgramSource;
use frames::Frame;
use resolution::search::ask;
use std::alloc::{AllocError, Global};
use terms::Cell;
use terms::signature::Signature;
use unification::{Outcome, Pair};
use verdicts::Answer;
use verdicts::settings::Settings;

// Equations over the variables 0 to 31 stand in it, at most sixteen, under the kinds of its signature; questions are asked of its source's clauses.
#[derive(Drop)]
pub struct Store<P, G> {
    pub(crate) base: Base<P, G>,
    pub(crate) table: Table,
    pub(crate) solver: Solver,
}

impl<P: ProgramSource + Drop, G: Signature + Drop> Store<P, G> {
    // A store under this number, with nothing entered and no mark open. All memory is taken here.
    pub fn new(
        heap: Global,
        settings: Settings,
        number: u16,
        source: P,
        signature: G,
    ) -> Result<Store<P, G>, AllocError>
        ensures { IfOk result (λ s. (s.base.settings ≡ settings) × (s.base.number ≡ number) × (s.base.source ≡ source) × (s.base.signature ≡ signature) × (model_of s.table ≡ opened)) }
    {
        let table = Table::new(heap)?;
        let solver = Solver::new(heap)?;
        let base = Base {
            settings,
            number,
            source,
            signature,
        };
        Ok(Store {
            base,
            table,
            solver,
        })
    }
}

impl<P: ProgramSource, G: Signature> Store<P, G> {
    // Adds an equation, given as the cells of its two sides, the second right after the first, and tells the outcome of all that stand.
    pub fn enter(
        &mut self,
        cells: &[Cell],
        pairs: &mut [Pair],
        frames: &mut [Frame],
    ) -> Result<Outcome, Refusal>
        ensures told { Entered (G.Signature.kind self.old.base.signature) (model_of self.old.table) cells.now (length pairs.old) (length frames.old) result (model_of self.new.table) }
        ensures unmoved { OnErr result (self.new ≡ self.old) }
        ensures same { self.new.base ≡ self.old.base }
    {
        ask::scratch(pairs, frames)?;
        let second = judge::equation(cells, self.table.count())?;
        self.table.add(cells, second);
        Ok(self.solver.stand(&self.table, &self.base.signature, pairs))
    }

    // Opens a mark at the equations that stand. Its token has to be spent by keeping or taking back.
    pub fn mark(&mut self) -> Result<Token, Refusal>
        ensures told { Marked self.old.base.number (model_of self.old.table) (slip_of result) (model_of self.new.table) }
        ensures unmoved { OnErr result (self.new ≡ self.old) }
        ensures same { self.new.base ≡ self.old.base }
    {
        let depth = self.table.deep();
        if depth as usize >= MOST_MARKS {
            return Err(Refusal::MarksFull);
        }
        self.table.mark();
        Ok(Token {
            slip: Slip {
                store: self.base.number,
                depth: depth + 1,
            },
        })
    }

    // Spends the token, if it is that of the newest open mark.
    fn spend(&self, token: Token) -> Result<(), (Token, Refusal)>
        ensures told { Ended self.now.base.number (model_of self.now.table) token.slip (ended_of result) (model_of self.now.table) (model_of self.now.table) }
        ensures back { Returned token result }
    {
        let depth = self.table.deep();
        let newest = Slip {
            store: self.base.number,
            depth,
        };
        if depth == 0 || token.slip != newest {
            return Err((token, Refusal::NotNewest));
        }
        token.spend();
        Ok(())
    }

    // Drops the newest mark, and keeps what was entered since.
    pub fn keep(&mut self, token: Token) -> Result<(), (Token, Refusal)>
        ensures told { Kept self.old.base.number (model_of self.old.table) token.slip (ended_of result) (model_of self.new.table) }
        ensures back { Returned token result }
        ensures unmoved { OnErr result (self.new ≡ self.old) }
        ensures same { self.new.base ≡ self.old.base }
    {
        self.spend(token)?;
        self.table.unmark();
        Ok(())
    }

    // Drops the newest mark, and takes back what was entered since.
    pub fn take_back(&mut self, token: Token) -> Result<(), (Token, Refusal)>
        ensures told { TakenBack self.old.base.number (model_of self.old.table) token.slip (ended_of result) (model_of self.new.table) }
        ensures back { Returned token result }
        ensures unmoved { OnErr result (self.new ≡ self.old) }
        ensures same { self.new.base ≡ self.old.base }
    {
        self.spend(token)?;
        self.table.cut();
        Ok(())
    }

    // The answer to a question, given as the cells of its goals, under the equations that stand. With holds the path of the shortest success stands in the
    // first places of the slice.
    pub fn ask(
        &mut self,
        question: &[Cell],
        pairs: &mut [Pair],
        frames: &mut [Frame],
        path: &mut [u16],
    ) -> Result<Answer, Refusal>
        ensures told { Asked (P.Source.clauses self.old.base.source) (G.Signature.kind self.old.base.signature) self.old.base.settings.limit self.old.base.settings.allowance (model_of self.old.table) question.now (length pairs.old) (length frames.old) path.old result path.new }
        ensures same { (self.new.base ≡ self.old.base) × (self.new.table ≡ self.old.table) }
    {
        ask::scratch(pairs, frames)?;
        ask::question(question)?;
        self.solver
            .ask(&self.table, &self.base, question, pairs, frames, path)
    }

    // Writes a variable's term, as the equations that stand are solved, from the start of the slice, and tells how many cells that are.
    pub fn read(
        &mut self,
        variable: u32,
        pairs: &mut [Pair],
        frames: &mut [Frame],
        out: &mut [Cell],
    ) -> Result<usize, Refusal>
        ensures told { ReadOut (G.Signature.kind self.old.base.signature) (model_of self.old.table) variable (length pairs.old) (length frames.old) out.old result out.new }
        ensures same { (self.new.base ≡ self.old.base) × (self.new.table ≡ self.old.table) }
    {
        ask::scratch(pairs, frames)?;
        judge::variable(variable)?;
        self.solver
            .read(&self.table, &self.base.signature, variable, pairs, out)
    }
}
