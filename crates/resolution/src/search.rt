// A search holds the equations that stand and answers questions under them. Its calls stand in the modules below.
ghost use Rattle.std.specs.Prelude.{◌≡◌, ◌≤◌, length, vec_len};
ghost use Rattle.unification.specs.State.{cells_of};

use crate::machine::Machine;

pub mod ask;
pub mod equations;

// Between calls at most 512 cells stand, those of sixteen equations of 32 cells each, and no goal waits.
#[derive(Drop)]
pub struct Search {
    pub(crate) machine: Machine,
    ghost few: { length (cells_of machine.bindings) ≤ 512 },
    ghost idle: { vec_len machine.waiting ≡ 0 },
}
