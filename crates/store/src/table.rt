// The standing equations and the open marks.
ghost use Rattle.std.specs.Prelude.{◌≡◌, ℕ, ◌<◌, ◌≤◌, length, vec_len, vec_capacity, slice_index};
ghost use Rattle.store.specs.Entries.{Laid};

use terms::Cell;
use unification::Equation;

// The cells of the equations one after another, the places of both sides of each, and the marks, each the number of equations that stood when it was made.
// There is room for all that may come. Clauses see the fields and not only what they stand for, so that a refused call can promise that all stay.
#[derive(Drop)]
pub struct Table {
    pub(crate) cells: Vec<Cell>,
    pub(crate) places: Vec<Equation>,
    pub(crate) marks: Vec<usize>,
    ghost room: { (512 ≤ vec_capacity cells) × (16 ≤ vec_capacity places) × (8 ≤ vec_capacity marks) },
    ghost few: { vec_len places ≤ 16 },
    ghost shallow: { vec_len marks ≤ 8 },
    ghost laid: { Laid cells.items places.items },
    ghost rising: { (i j : ℕ) → i ≤ j → j < length marks.items → slice_index marks.items i ≤ slice_index marks.items j },
    ghost within: { (k : ℕ) → k < length marks.items → slice_index marks.items k ≤ length places.items },
}
