// The equations that stand in a search, and what they give to a variable.
ghost use Rattle.std.specs.Prelude.{◌≡◌, ◌&&◌, [], ◌++◌, length, is_some, IfSome, IfNone, if◌then◌else◌, Some, None, MatchOption, nat_le, vec_len};
ghost use Rattle.graphs.specs.Links.{restore};
ghost use Rattle.unification.specs.Outcomes.{Settles};
ghost use Rattle.unification.specs.Several.{UnifiedAll};
ghost use Rattle.unification.specs.Reading.{ReadsVariable};
ghost use Rattle.resolution.specs.State.{standing_cells, standing_links, standing_trail, stands};

use super::Search;
use terms::Cell;
use terms::signature::Signature;
use unification::{Equation, Outcome, Pair, Snapshot};

// The cells of sixteen equations of 32 cells each.
const MOST_STANDING: usize = 512;

impl Search {
    // Takes all equations back, and their cells.
    pub fn clear(&mut self)
        ensures cells { standing_cells self.new ≡ [] }
        ensures links { standing_links self.new ≡ restore (standing_links self.old) (standing_trail self.old) }
        ensures trail { standing_trail self.new ≡ [] }
        ensures waiting { vec_len self.new.machine.waiting ≡ 0 }
    {
        self.machine.bindings.roll_back(Snapshot::start());
    }

    // The place where the cells now stand, after those before; none, and nothing changes, where they do not fit.
    pub fn append(&mut self, cells: &[Cell]) -> Option<usize>
        ensures value { result ≡ (if stands (standing_cells self.old) cells.now then Some (length (standing_cells self.old)) else None) }
        ensures cells { standing_cells self.new ≡ (if stands (standing_cells self.old) cells.now then standing_cells self.old ++ cells.now else standing_cells self.old) }
        ensures links { standing_links self.new ≡ standing_links self.old }
        ensures trail { standing_trail self.new ≡ standing_trail self.old }
    {
        let at = self.machine.bindings.len();
        if cells.len() > MOST_STANDING - at {
            return None;
        }
        self.machine.bindings.append(cells)
    }

    // The outcome of the equations between the terms at places, added together to those that stand. None, and nothing changes, where there are more
    // than 16 or the slice is too short. Unless they are solved, the links stay as they were.
    pub fn settle<K: Signature>(
        &mut self,
        kinds: &K,
        equations: &[Equation],
        pairs: &mut [Pair],
    ) -> Option<Outcome>
        ensures some { is_some result ≡ (nat_le (length equations.now) 16 && nat_le 12864 (length pairs.old)) }
        ensures cells { standing_cells self.new ≡ standing_cells self.old }
        ensures settles { MatchOption result ((standing_links self.new ≡ standing_links self.old) × (standing_trail self.new ≡ standing_trail self.old)) (λ o. Settles (standing_links self.old) (standing_trail self.old) (standing_links self.new) (standing_trail self.new) o) }
        ensures means { IfSome result (λ o. UnifiedAll (K.Signature.kind kinds.now) (standing_cells self.old) (standing_links self.old) equations.now (standing_links self.new) o) }
    {
        self.machine.bindings.unify_all(kinds, equations, pairs)
    }

    // Writes the variable's term, as it is solved, from the start of the slice, and tells how many cells that are. None, and the slice stays as it is,
    // where it is too short.
    pub fn read(&self, variable: u32, out: &mut [Cell]) -> Option<usize>
        ensures reads { ReadsVariable (standing_cells self.now) (standing_links self.now) variable out.old result out.new }
        ensures kept { IfNone result (out.new ≡ out.old) }
    {
        self.machine.bindings.read(variable, out)
    }
}
