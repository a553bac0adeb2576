// The cells. The methods stand in the module `ops`.
ghost use Rattle.std.specs.Prelude.{◌≡◌, ◌≤◌, true, vec_len, vec_capacity};
ghost use Rattle.graphs.specs.Cells.{all_fit};

use terms::Cell;

mod nodes;
mod ops;

// Cells with arities of at most 8 and variables below 1,056, and room for 1,568 of them.
#[derive(Drop)]
pub struct Arena {
    cells: Vec<Cell>,
    ghost few: { vec_len cells ≤ 1568 },
    ghost space: { 1568 ≤ vec_capacity cells },
    ghost fit: { all_fit cells.items ≡ true },
}

// So many terms are left, and the next one stands at the place.
#[derive(Clone, Copy)]
pub struct Arguments<'a> {
    arena: &'a Arena,
    place: usize,
    left: usize,
}
