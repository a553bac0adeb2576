// The theory of unification on linked nodes: cells as a graph, links between its nodes, and what solved links mean.
#![tactic(auto)]

ghost use Rattle.graphs.specs.Laws.{Decoding, Growing, GrowingAcyclic, Adding, Starting, StartingAcyclic, Room, Following, Spelling, Joining, Living, GrowingLive};

// Two nodes that are to be equal.
#[derive(Clone, Copy, Debug, Default, PartialEq, Eq)]
pub struct Pair {
    pub left: usize,
    pub right: usize,
}

// The laws by which callers go on from one equation to the next.
pub fn laws_stand()
    ensures decoding { Decoding }
    ensures growing { Growing }
    ensures growing_acyclic { GrowingAcyclic }
    ensures adding { Adding }
    ensures starting { Starting }
    ensures starting_acyclic { StartingAcyclic }
    ensures room { Room }
    ensures following { Following }
    ensures spelling { Spelling }
    ensures joining { Joining }
    ensures living { Living }
    ensures growing_live { GrowingLive }
{}
