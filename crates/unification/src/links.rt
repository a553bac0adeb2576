// Links between nodes, and the trail that takes them back. The methods stand in the module `ops`.
ghost use Rattle.std.specs.Prelude.{◌≡◌, ℕ, ◌+◌, ◌≤◌, vec_len, vec_capacity};
ghost use Rattle.graphs.specs.Links.{up_of, weight, ones};

mod ops;

// A link for each node, never up; and the nodes linked so far, the newest last. There is room on the trail for each root, as a link
// takes one away.
#[derive(Drop)]
pub struct Links {
    up: Vec<usize>,
    trail: Vec<usize>,
    ghost nodes: { vec_len up ≡ 2624 },
    ghost down: { (k : ℕ) → up_of up.items k ≤ k },
    ghost paper: { weight ones 0 up.items + vec_len trail ≤ 2624 },
    ghost long: { 2624 ≤ vec_capacity trail },
}
