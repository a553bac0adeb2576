// One clause or question, as far as it is read.
#![tactic(auto)]

ghost use Rattle.std.specs.Prelude.{◌≡◌, ℕ, ◌<◌, ◌≤◌, vec_len, vec_capacity, slice_index_or};
ghost use Rattle.terms.specs.declared.Cell.{Cell as CellOf};
ghost use Rattle.clauses.specs.Clauses.{Slim};
ghost use Rattle.draft.specs.Under.{Under};

use lexis::token::Span;
use terms::Cell;

pub mod grammar;
pub mod reader;

// A clause or question has at most so many cells and body goals, a symbol so many arguments, and so many brackets can be open.
const CELLS: usize = 32;

const GOALS: u8 = 8;

const ARGUMENTS: u8 = 8;

const DEPTH: usize = 8192;

// An open bracket: the cell whose arguments it holds, and how many have begun.
#[derive(Clone, Copy, PartialEq, Eq, Debug)]
pub struct Bracket {
    pub cell: usize,
    pub args: u8,
}

// Its memory is taken once: 32 cells with their words, and 8,192 open brackets. The spans of the words stand beside the cells, since the cells are lent as one slice. It serves one clause or question after another.
// `start` is where the clause or question begins; `body` says that its head is past; `fresh` has the words that the book does not have, each once.
// `over` says that a question has more than 32 cells or 8 goals: it is read to its end all the same, and no cell past the 32nd is kept.
#[derive(Drop)]
pub struct Draft {
    cells: Vec<Cell>,
    spans: Vec<Span>,
    fresh: Vec<Span>,
    brackets: Vec<Bracket>,
    start: usize,
    vars: u32,
    goals: u8,
    body: bool,
    over: bool,
    ghost space: { (32 ≤ vec_capacity cells) × (32 ≤ vec_capacity spans) },
    ghost room: { (32 ≤ vec_capacity fresh) × (8192 ≤ vec_capacity brackets) },
    ghost few: { vec_len cells ≤ 32 },
    ghost level: { vec_len spans ≡ vec_len cells },
    ghost few_fresh: { vec_len fresh ≤ 32 },
    ghost nested: { vec_len brackets ≤ 8192 },
    ghost numbered: { vars ≤ vec_len cells },
    ghost low: { (k : ℕ) (d : CellOf) → k < vec_len cells → Under vars (slice_index_or cells.items k d) },
    ghost slim: { (k : ℕ) (d : CellOf) → k < vec_len cells → Slim (slice_index_or cells.items k d) },
}
