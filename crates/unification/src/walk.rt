// The walk that looks for a function that contains itself: it goes from the roots that new links reach to those of their arguments, and
// has found a cycle where it comes to one that it is still within. What is cleared before a walk is one byte for each cell.
ghost use Rattle.std.specs.Prelude.{◌≡◌, ℕ, ◌<◌, ◌≤◌, Bool, length, slice_index_or};
ghost use Rattle.graphs.specs.Cells.{graph, blank};
ghost use Rattle.graphs.specs.Search.{StillAcyclic};
ghost use Rattle.unification.specs.Marks.{mark_of, unseen, Walks};
ghost use Rattle.unification.specs.Run.{StaysChecked};
ghost use Rattle.unification.specs.State.{cells_in, links_in};

use super::arena::Arena;
use super::links::Links;

mod mark;

pub use mark::Mark;

// A walk over the arguments in the arena, with a mark for each cell.
#[derive(Drop)]
struct Walk<'a> {
    arena: &'a Arena,
    links: &'a Links,
    marks: &'a mut [Mark],
    ghost one_each: { length marks.now ≡ length (cells_in arena.now) },
}

impl<'a> Walk<'a> {
    // The mark of root k: done where it is no function.
    fn mark(&self, k: usize) -> Mark
        ensures { result ≡ mark_of (graph (cells_in self.now.arena.now)) self.now.marks.now k }
    {
        if self.arena.is_function(k) {
            self.marks[k]
        } else {
            Mark::Done
        }
    }

    // Visits the function at root r and all that it reaches; false where that is a cycle.
    fn visit(&mut self, r: usize) -> bool
        requires { mark_of (graph (cells_in self.old.arena.now)) self.old.marks.now r ≡ Mark.Unseen }
        ensures arena { self.new.arena ≡ self.old.arena }
        ensures links { self.new.links ≡ self.old.links }
        ensures fewer { unseen self.new.marks.now < unseen self.old.marks.now }
        ensures walks { Walks (cells_in self.old.arena.now) (links_in self.old.links.now) self.old.marks.now r self.new.marks.now result }
    {
        self.marks[r] = Mark::Open;
        let arena = self.arena;
        for kid in arena.arguments(r + 1, arena.arity(r)) {
            let k = self.links.find(kid);
            match self.mark(k) {
                Mark::Open => return false,
                Mark::Unseen => {
                    if !self.visit(k) {
                        return false;
                    }
                }
                Mark::Done => {}
            }
        }
        self.marks[r] = Mark::Done;
        true
    }

    // Visits the functions that the nodes reach; false where some reach themselves.
    fn sweep(&mut self, nodes: &[usize]) -> bool
        requires { (k : ℕ) → slice_index_or self.old.marks.now k Mark.Unseen ≡ Mark.Unseen }
        ensures { StillAcyclic (cells_in self.old.arena.now) (links_in self.old.links.now) nodes.now result }
    {
        for n in nodes {
            let r = self.links.find(*n);
            if self.mark(r) == Mark::Unseen && !self.visit(r) {
                return false;
            }
        }
        true
    }
}

// Whether still no function contains itself after nodes were linked: only one that was linked or bound can, and only through a new link.
pub fn stays_acyclic(
    deep: bool,
    arena: &Arena,
    links: &Links,
    nodes: &[usize],
    marks: &mut [Mark],
) -> bool
    requires { length (cells_in arena.now) ≤ length marks.old }
    ensures { StaysChecked deep (cells_in arena.now) (links_in links.now) nodes.now result }
{
    !deep || is_acyclic(arena, links, nodes, marks)
}

// Whether still no function contains itself. Only the marks of the nodes below the cells' end are cleared and used.
fn is_acyclic(arena: &Arena, links: &Links, nodes: &[usize], marks: &mut [Mark]) -> bool
    requires { length (cells_in arena.now) ≤ length marks.old }
    ensures { StillAcyclic (cells_in arena.now) (links_in links.now) nodes.now result }
{
    let marks = &mut marks[0..arena.len()];
    marks.fill(Mark::Unseen);
    let mut walk = Walk {
        arena,
        links,
        marks,
    };
    walk.sweep(nodes)
}
