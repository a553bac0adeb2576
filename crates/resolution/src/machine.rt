// The machine that walks a tree. It owns all its memory, which is taken once. Its calls stand in the modules below.
ghost use Rattle.std.specs.Prelude.{◌≡◌, ◌≤◌, length, vec_items, vec_len, vec_capacity, IfSome};
ghost use Rattle.std.proofs.Props.{props};
ghost use Rattle.unification.specs.Held.{held, room};
ghost use Rattle.verdicts.specs.Leaves.{Few};
ghost use Rattle.frames.specs.Frames.{Rising, rising_prop};

use clauses::Source;
use frames::{Frame, Waiting};
use terms::signature::Signature;
use unification::stack::Stack;
use unification::{Bindings, Pair};
use verdicts::ending::Tally;
use verdicts::settings::Settings;

mod goals;
mod step;
mod tree;
mod walk;

// A path has at most so many uses, one for each step of a branch.
pub(crate) const MOST_USES: usize = 32;

// The equations that stand, the goals that wait, the clause numbers of the branch that is walked, and those of the shortest success so far. How many of a
// branch count says its node's step, of the shortest success the verdict's uses.
#[derive(Drop)]
pub struct Machine {
    pub(crate) bindings: Bindings,
    pub(crate) waiting: Vec<Waiting>,
    pub(crate) trodden: [u16; MOST_USES],
    pub(crate) best: [u16; MOST_USES],
    ghost space: { 1088 ≤ vec_capacity waiting },
}

// What a tree is walked by: the source of its clauses, the kinds of constants, and the limit and the allowance of its steps.
#[derive_where(Clone, Copy)]
pub(crate) struct Task<'a, P: Source, K: Signature> {
    pub(crate) source: &'a P,
    pub(crate) kinds: &'a K,
    pub(crate) settings: Settings,
}

// How far a walk has come: the frames that are left to it and the tally of the leaves so far; and the pairs that it is lent.
#[derive(Drop)]
pub(crate) struct Progress<'a> {
    pairs: &'a mut [Pair],
    frames: Stack<'a, Frame>,
    tally: Tally,
    ghost wide: { 12864 ≤ length pairs.now },
    ghost deep: { 512 ≤ room frames },
    ghost rising: { Rising (held frames) } by { rising_prop (held frames) },
    ghost few: { Few tally.leaves } by { Prim.hlevel props },
}
