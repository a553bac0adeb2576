// Reading a variable: the spelling of its term in the solved form. A term may be far longer than its cells, as parts are shared; so
// a first walk counts down from the room that there is, and only if it suffices a second one writes. Each cell takes one from the
// room, so both walks end.
ghost use Rattle.std.specs.Prelude.{◌≡◌, ◌<◌, ◌≤◌, IfSome, IfNone};
ghost use Rattle.graphs.specs.Cells.{graph};
ghost use Rattle.unification.specs.Reading.{head_of, Counts, Writes, ReadsVariable};
ghost use Rattle.unification.specs.State.{cells_of, links_of};

use super::Bindings;
use crate::ARENA;
use terms::Cell;

impl Bindings {
    // The first cell of a root's spelling. The number of a variable has 32 bits, and so a bound goes along with each node.
    fn head(&self, r: usize) -> Cell
        requires { r < 4294968864 }
        ensures { result ≡ head_of (graph (cells_of self.now) r) r }
    {
        match self.arena.cell(r) {
            Some(c) if c.tag == 2 => Cell::symbol(c.value, c.arity),
            Some(c) => Cell::constant(c.form, c.value),
            None => Cell::variable(r.saturating_sub(ARENA) as u32),
        }
    }

    // What is left of the room after the spelling of a node; none where there is too little.
    fn fits(&self, node: usize, room: usize) -> Option<usize>
        requires { node < 4294968864 }
        ensures counts { Counts (cells_of self.now) (links_of self.now) node room result }
        ensures less { IfSome result (λ k. k < room) }
    {
        let mut rest = room.checked_sub(1)?;
        let r = self.links.find(node);
        let n = self.head(r).arity as usize;
        for kid in self.arena.arguments(r + 1, n) {
            rest = self.fits(kid, rest)?;
        }
        Some(rest)
    }

    // Writes the spelling of a node from a place on, and tells the place after it. It ends early where the slice is full.
    fn write(&self, node: usize, out: &mut [Cell], at: usize) -> usize
        requires { node < 4294968864 }
        ensures writes { Writes (cells_of self.now) (links_of self.now) node out.old at out.new result }
        ensures on { at ≤ result }
    {
        if at >= out.len() {
            return at;
        }
        let r = self.links.find(node);
        let c = self.head(r);
        out[at] = c;
        let n = c.arity as usize;
        let mut next = at + 1;
        for kid in self.arena.arguments(r + 1, n) {
            next = self.write(kid, out, next);
        }
        next
    }

    // Writes the variable's term, as it is solved, from the start of the slice, and tells how many cells that are. None, and the
    // slice stays as it is, where it is too short. Of variables tied together the lowest stands for all.
    pub fn read(&self, variable: u32, out: &mut [Cell]) -> Option<usize>
        ensures reads { ReadsVariable (cells_of self.now) (links_of self.now) variable out.old result out.new }
        ensures kept { IfNone result (out.new ≡ out.old) }
    {
        let node = ARENA + variable as usize;
        self.fits(node, out.len())?;
        Some(self.write(node, out, 0))
    }
}
