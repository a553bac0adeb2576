// The pairs of a stack, one after another. The cells, the links and the stack are passed one by one: a struct of them would have to say
// at each call that the cells stay as they are, which a shared reference says by itself.
ghost use Rattle.std.specs.Prelude.{◌≡◌, ℕ, ◌+◌, ◌<◌, ◌≤◌, ◌∷◌, length};
ghost use Rattle.graphs.specs.Graph.{Tie, onto};
ghost use Rattle.graphs.specs.Links.{up_of, Logged};
ghost use Rattle.graphs.specs.Meaning.{Live};
ghost use Rattle.graphs.specs.Cells.{graph, arguments};
ghost use Rattle.unification.specs.Held.{held, count, room};
ghost use Rattle.unification.specs.Run.{Meets, Ready, Turned, Ran, tallied};
ghost use Rattle.unification.specs.Outcomes.{same_functor, shared_arity, opened};
ghost use Rattle.unification.specs.State.{cells_in, links_in, trail_in};

use super::arena::Arena;
use super::links::Links;
use super::stack::Stack;
use graphs::Pair;
use terms::Cell;
use terms::signature::Signature;

// How two roots meet whose kinds do not clash.
#[derive(Clone, Copy, Debug, PartialEq, Eq)]
pub enum Meet {
    Bind,
    Same,
    Unequal,
    Args(usize),
}

// What one pair came to: a function was linked or bound (`Deep`), or not (`Plain`); or two constants of one kind differ.
#[derive(Clone, Copy, Debug, PartialEq, Eq)]
pub enum Turn {
    Plain,
    Deep,
    Differ,
}

// What all pairs came to: whether no constants differ, and whether a function was linked or bound.
#[derive(Clone, Copy, Debug, PartialEq, Eq)]
pub struct Tally {
    pub equal: bool,
    pub deep: bool,
}

// How two roots meet, r above q; none where their kinds clash.
fn compare_roots<S: Signature>(signature: &S, arena: &Arena, r: usize, q: usize) -> Option<Meet>
    requires { q < r }
    ensures { Meets (S.Signature.kind signature.now) (cells_in arena.now) r q result }
{
    let (Some(x), Some(y)) = (arena.cell(r), arena.cell(q)) else {
        return Some(Meet::Bind);
    };
    match (x.tag == 2, y.tag == 2) {
        (true, true) if x.value == y.value && x.arity == y.arity => {
            Some(Meet::Args(x.arity as usize))
        }
        (false, false) if x.form == y.form && x.value == y.value => Some(Meet::Same),
        (false, false)
            if signature.kind_of(x.form, x.value) == signature.kind_of(y.form, y.value) => {
            Some(Meet::Unequal)
        }
        _ => None,
    }
}

// Stacks the pairs of n arguments from r and from q on.
fn push_args(arena: &Arena, pairs: &mut Stack<'_, Pair>, r: usize, q: usize, n: usize)
    requires { count pairs.old + n ≤ room pairs.old }
    ensures held { held pairs.new ≡ onto (arguments (cells_in arena.now) n r) (arguments (cells_in arena.now) n q) (held pairs.old) }
    ensures count { count pairs.new ≡ count pairs.old + n }
    ensures room { room pairs.new ≡ room pairs.old }
{
    // Two places, and no pair of iterators: nearly every step of a search comes here, and they were slower.
    let mut x = r;
    let mut y = q;
    for i in 0..n {
        pairs.put(Pair {
            left: arena.node(x),
            right: arena.node(y),
        });
        // after the last pair no place is needed
        if i + 1 < n {
            x = arena.end_of(x);
            y = arena.end_of(y);
        }
    }
}

// Whether two cells are functions of one symbol and arity.
fn same_functor(x: Cell, y: Cell) -> bool
    ensures { result ≡ same_functor x y }
{
    x.tag == 2 && y.tag == 2 && x.value == y.value && x.arity == y.arity
}

// The arity of the functions at two places, where they are of one symbol and arity.
fn shared_arity(arena: &Arena, left: usize, right: usize) -> Option<usize>
    ensures { result ≡ shared_arity (cells_in arena.now) left right }
{
    let x = arena.cell(left)?;
    let y = arena.cell(right)?;
    if same_functor(x, y) {
        Some(x.arity as usize)
    } else {
        None
    }
}

// Stacks the equation between the terms at two places. Two functions of one symbol and arity need no link: their arguments are stacked at once.
pub fn push_equation(arena: &Arena, pairs: &mut Stack<'_, Pair>, left: usize, right: usize)
    requires { count pairs.old + 8 ≤ room pairs.old }
    ensures held { held pairs.new ≡ opened (cells_in arena.now) left right (held pairs.old) }
    ensures count { count pairs.new ≤ count pairs.old + 8 }
    ensures room { room pairs.new ≡ room pairs.old }
{
    if let Some(n) = shared_arity(arena, left, right) {
        push_args(arena, pairs, left + 1, right + 1, n);
    } else {
        pairs.put(Pair {
            left: arena.node(left),
            right: arena.node(right),
        });
    }
}

// One pair, by its two roots, r above q; none where their kinds clash.
fn join<S: Signature>(
    signature: &S,
    arena: &Arena,
    links: &mut Links,
    pairs: &mut Stack<'_, Pair>,
    r: usize,
    q: usize,
) -> Option<Turn>
    requires ready { Ready (cells_in arena.now) (links_in links.old) (held pairs.old) (count pairs.old) (room pairs.old) }
    requires above { q < r }
    requires inside { r < length (links_in links.old) }
    requires top { up_of (links_in links.old) r ≡ r }
    requires lower { up_of (links_in links.old) q ≡ q }
    ensures logged { Logged (links_in links.old) (trail_in links.old) (links_in links.new) (trail_in links.new) }
    ensures turned { (p : Pair) → Tie (up_of (links_in links.old)) p r q → Live 1568 (graph (cells_in arena.now)) p.left → Live 1568 (graph (cells_in arena.now)) p.right → Turned (S.Signature.kind signature.now) (cells_in arena.now) (links_in links.old) (p ∷ held pairs.old) (count pairs.old + 1) (links_in links.new) (held pairs.new) (count pairs.new) (room pairs.new) result }
{
    match compare_roots(signature, arena, r, q)? {
        Meet::Bind => {
            links.link(r, q);
            if arena.is_function(q) {
                Some(Turn::Deep)
            } else {
                Some(Turn::Plain)
            }
        }
        Meet::Same => Some(Turn::Plain),
        Meet::Unequal => Some(Turn::Differ),
        Meet::Args(n) => {
            links.link(r, q);
            push_args(arena, pairs, r + 1, q + 1, n);
            Some(Turn::Deep)
        }
    }
}

// One pair, by its two nodes; none where their kinds clash.
fn one_turn<S: Signature>(
    signature: &S,
    arena: &Arena,
    links: &mut Links,
    pairs: &mut Stack<'_, Pair>,
    p: Pair,
) -> Option<Turn>
    requires { Ready (cells_in arena.now) (links_in links.old) (p ∷ held pairs.old) (count pairs.old + 1) (room pairs.old) }
    ensures logged { Logged (links_in links.old) (trail_in links.old) (links_in links.new) (trail_in links.new) }
    ensures turned { Turned (S.Signature.kind signature.now) (cells_in arena.now) (links_in links.old) (p ∷ held pairs.old) (count pairs.old + 1) (links_in links.new) (held pairs.new) (count pairs.new) (room pairs.new) result }
{
    let x = links.find(p.left);
    let y = links.find(p.right);
    if x == y {
        return Some(Turn::Plain);
    }
    if y < x {
        join(signature, arena, links, pairs, x, y)
    } else {
        join(signature, arena, links, pairs, y, x)
    }
}

// What all pairs came to, with one more counted in.
fn count_in(tally: Tally, turn: Turn) -> Tally
    ensures { result ≡ tallied tally turn }
{
    match turn {
        Turn::Plain => tally,
        Turn::Deep => Tally {
            deep: true,
            ..tally
        },
        Turn::Differ => Tally {
            equal: false,
            ..tally
        },
    }
}

// All pairs of the stack, or none where no kinds fit them. Constants that differ do not stop the solving: a clash may still come.
pub fn solve<S: Signature>(
    signature: &S,
    arena: &Arena,
    links: &mut Links,
    pairs: &mut Stack<'_, Pair>,
) -> Option<Tally>
    requires { Ready (cells_in arena.now) (links_in links.old) (held pairs.old) (count pairs.old) (room pairs.old) }
    ensures logged { Logged (links_in links.old) (trail_in links.old) (links_in links.new) (trail_in links.new) }
    ensures ran { Ran (S.Signature.kind signature.now) (cells_in arena.now) (links_in links.old) (held pairs.old) (links_in links.new) result }
{
    let mut tally = Tally {
        equal: true,
        deep: false,
    };
    while let Some(p) = pairs.pop() {
        tally = count_in(tally, one_turn(signature, arena, links, pairs, p)?);
    }
    Some(tally)
}
