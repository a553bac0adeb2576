ghost use Rattle.std.specs.Prelude.{◌≡◌, ◌<◌, ◌≤◌, [], length, take, drop, IfOk, slice_set};
ghost use Rattle.graphs.specs.Graph.{find as root};
ghost use Rattle.graphs.specs.Links.{up_of, roots, restore, Logged};
ghost use Rattle.unification.specs.State.{links_in, trail_in};

use super::Links;
use crate::NODES;
use std::alloc::{AllocError, Global};

// Makes each of the nodes its own root.
fn unlink(up: &mut [usize], nodes: &[usize])
    ensures { up.new ≡ restore up.old nodes.now }
{
    for r in nodes {
        if *r < up.len() {
            up[*r] = *r;
        }
    }
}

impl Links {
    // Every node its own root.
    pub fn new(heap: Global) -> Result<Links, AllocError>
        ensures { IfOk result (λ l. (links_in l ≡ roots 0 2624) × (trail_in l ≡ [])) }
    {
        let up = (0..NODES).collect(heap)?;
        let trail = Vec::with_capacity(heap, NODES)?;
        Ok(Links { up, trail })
    }

    // The root of a node; a node without a link is its own.
    pub fn find(&self, node: usize) -> usize
        ensures value { result ≡ root (up_of (links_in self.now)) node }
        ensures top { up_of (links_in self.now) result ≡ result }
        ensures below { result ≤ node }
    {
        let up = self.up.as_slice();
        if node >= up.len() {
            return node;
        }
        // links never go up, so no place needs a test against the end
        let mut at = node;
        while up[at] != at {
            at = up[at];
        }
        at
    }

    // Links root r to the lower node q, and notes r on the trail.
    pub fn link(&mut self, r: usize, q: usize)
        requires inside { r < length (links_in self.old) }
        requires top { up_of (links_in self.old) r ≡ r }
        requires above { q < r }
        ensures linked { links_in self.new ≡ slice_set (links_in self.old) r q }
        ensures logged { Logged (links_in self.old) (trail_in self.old) (links_in self.new) (trail_in self.new) }
    {
        self.trail.push_reserved(r);
        self.up[r] = q;
    }

    // How many nodes were linked.
    pub fn len(&self) -> usize
        ensures { result ≡ length (trail_in self.now) }
    {
        self.trail.len()
    }

    // The nodes that were linked after the first `from`.
    pub fn linked_since(&self, from: usize) -> &[usize]
        requires { from ≤ length (trail_in self.now) }
        ensures { result.now ≡ drop from (trail_in self.now) }
    {
        &self.trail.as_slice()[from..]
    }

    // Takes back the links that came after the first `to`: each of their nodes is a root again.
    pub fn undo(&mut self, to: usize)
        ensures links { links_in self.new ≡ restore (links_in self.old) (drop to (trail_in self.old)) }
        ensures trail { trail_in self.new ≡ take to (trail_in self.old) }
    {
        let from = to.min(self.trail.len());
        unlink(self.up.as_mut_slice(), &self.trail.as_slice()[from..]);
        self.trail.truncate(to);
    }
}
