// Unification of typed terms by linked nodes, on memory that is taken once, and undoable.
//
// A node is the place of a constant or function cell, or 1,568 + v for the variable v. Each node links to itself, and is then a root,
// or to a lower node; the terms at linked nodes are equal. (One number for places and variables, and no enum: so one list holds all links,
// and of two nodes one is the lower.) An equation is solved by linking roots and stacking the pairs of their
// arguments; then a walk from the newly linked nodes looks for a function that contains itself. A trail of the linked nodes takes links back.
#![tactic(auto)]

ghost use Rattle.std.specs.Prelude.{◌≡◌};

mod arena;
pub mod bindings;
pub mod laws;
mod links;
mod solve;
pub mod stack;
mod walk;

pub use bindings::Bindings;
pub use graphs::Pair;

// At most so many cells, variables and, together, nodes.
pub const ARENA: usize = 1568;

pub const VARIABLES: usize = 1056;

pub const NODES: usize = 2624;

// The pairs that a caller lends for one equation.
pub const SCRATCH: usize = 12864;

// At most so many equations are solved at once.
pub const EQUATIONS: usize = 16;

// The terms at two places are to be equal. (A `Pair` is of two nodes: the number of a place says nothing of a node's.)
#[derive(Clone, Copy, Debug, Default, PartialEq, Eq)]
pub struct Equation {
    pub left: usize,
    pub right: usize,
}

// What an equation comes to, together with those before it: it has a solution; it has none, though kinds fit; no kinds fit.
#[derive(Clone, Copy, Debug, PartialEq, Eq)]
pub enum Outcome {
    Solved,
    False,
    Wrong,
}

// A state to roll back to: how many cells there were, and how many links.
#[derive(Clone, Copy, Debug, Default, PartialEq, Eq)]
pub struct Snapshot {
    cells: usize,
    trail: usize,
}

impl Snapshot {
    // The state before anything was added.
    pub fn start() -> Snapshot
        ensures { (result.cells ≡ 0) × (result.trail ≡ 0) }
    {
        Snapshot::default()
    }
}
