// The cells and the links between their nodes. The calls stand in the modules `calls`, `several` and `reading`.
ghost use Rattle.std.specs.Prelude.{◌≡◌, vec_len};

use crate::arena::Arena;
use crate::links::Links;
use crate::walk::Mark;

mod calls;
mod reading;
mod several;

// The cells, the links between their nodes, and the marks of a walk.
#[derive(Drop)]
pub struct Bindings {
    arena: Arena,
    links: Links,
    marks: Vec<Mark>,
    ghost slots: { vec_len marks ≡ 1568 },
}
