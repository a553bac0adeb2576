// A book of clauses, read from text. It takes clauses while it is open; sealed, it takes no more and is a source.
#![tactic(auto)]

ghost use Rattle.std.specs.Prelude.{◌≤◌, vec_len, vec_capacity, All};
ghost use Rattle.clauses.specs.Clauses.{Low, Slim};
ghost use Rattle.book.specs.Fit.{Inside, Right, Narrow, Rising};

use clauses::Predicate;
use names::Names;
use terms::Cell;

pub mod opened;
pub mod order;
pub mod question;
pub mod sealed;

// One clause: its predicate, and where its cells stand.
#[derive(Clone, Copy, Debug, PartialEq, Eq)]
pub struct Row {
    pub(crate) predicate: Predicate,
    pub(crate) from: usize,
    pub(crate) len: usize,
}

// Its memory is taken once, at the stated limits: 2,048 cells, 256 clauses. So the rows are a list in order: a map would take memory at each clause.
#[derive(Drop)]
pub struct Book {
    pub(crate) names: Names,
    pub(crate) cells: Vec<Cell>,
    pub(crate) rows: Vec<Row>,
    ghost space: { (2048 ≤ vec_capacity cells) × (256 ≤ vec_capacity rows) },
    ghost few: { vec_len rows ≤ 256 },
    ghost small: { vec_len cells ≤ 2048 },
    ghost low: { All Low cells.items },
    ghost slim: { All Slim cells.items },
    ghost inside: { All (Inside (vec_len cells)) rows.items },
    ghost right: { All (Right cells.items) rows.items },
    ghost narrow: { All Narrow rows.items },
    ghost sorted: { Rising rows.items },
}

// A book that takes no more clauses.
#[derive(Drop)]
pub struct SealedBook {
    pub(crate) book: Book,
}
