// The records of a search: goals that wait, nodes of the tree, and the frames of those whose clauses are still to be tried; and what they stand for.
#![tactic(auto)]

ghost use Rattle.std.specs.Prelude.{◌≡◌, false, None};

use unification::Snapshot;

pub mod moves;

// A goal that waits, by its place among the cells, and the goals after it. A goal list is the place of its first goal among those that wait, and none
// where it is empty. The goals that wait lie in memory that is taken once, and lists share their ends, so a list is no chain of boxes.
#[derive(Clone, Copy, Debug, Default, PartialEq, Eq)]
pub struct Waiting {
    pub goal: usize,
    pub rest: Option<usize>,
}

// A node of the tree: its goal list, its flag and its step number. Its equations are those that stand in the bindings.
#[derive(Clone, Copy, Debug, Default, PartialEq, Eq)]
pub struct Node {
    pub goals: Option<usize>,
    pub flag: bool,
    pub step: u8,
}

// A node whose leftmost goal is taken: the number of the clause that is next, and what to go back to before it is tried. A caller
// fills its scratch with the default.
#[derive(Clone, Copy, Debug, Default, PartialEq, Eq)]
pub struct Frame {
    pub node: Node,
    pub clause: usize,
    pub bindings: Snapshot,
    pub waiting: usize,
}
