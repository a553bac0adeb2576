// The search that the standing equations are solved in.
ghost use Rattle.std.specs.Prelude.{◌≡◌};
ghost use Rattle.graphs.specs.Links.{restore, roots};
ghost use Rattle.resolution.specs.State.{standing_links, standing_trail};

use resolution::search::Search;

// Whatever stands in it, taking all of that back leaves no links.
#[derive(Drop)]
pub struct Solver {
    pub(crate) search: Search,
    ghost undone: { restore (standing_links search) (standing_trail search) ≡ roots 0 2624 },
}
