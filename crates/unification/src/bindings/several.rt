// Several equations at once.
ghost use Rattle.std.specs.Prelude.{◌≡◌, ◌+◌, ◌≤◌, ◌&&◌, length, is_some, IfSome, MatchOption, nat_le};
ghost use Rattle.unification.specs.Held.{held, count, room};
ghost use Rattle.unification.specs.Outcomes.{Settles};
ghost use Rattle.unification.specs.Several.{stacked, UnifiedAll};
ghost use Rattle.unification.specs.State.{cells_in, cells_of, links_of, trail_of};

use super::Bindings;
use crate::arena::Arena;
use crate::stack::Stack;
use crate::{EQUATIONS, Equation, Outcome, SCRATCH};
use graphs::Pair;
use terms::signature::Signature;

// Stacks the nodes of each equation.
fn push_all(arena: &Arena, pairs: &mut Stack<'_, Pair>, equations: &[Equation])
    requires { count pairs.old + length equations.now ≤ room pairs.old }
    ensures held { held pairs.new ≡ stacked (cells_in arena.now) equations.now (held pairs.old) }
    ensures count { count pairs.new ≡ count pairs.old + length equations.now }
    ensures room { room pairs.new ≡ room pairs.old }
{
    for e in equations {
        pairs.put(Pair {
            left: arena.node(e.left),
            right: arena.node(e.right),
        });
    }
}

impl Bindings {
    // The equations, each between the terms at two places, added together to those that stand: a false one does not hide a wrong one.
    // None, and nothing changes, where there are more than 16 or the slice is too short. Unless they are solved, the links stay as they were.
    pub fn unify_all<S: Signature>(
        &mut self,
        signature: &S,
        equations: &[Equation],
        scratch: &mut [Pair],
    ) -> Option<Outcome>
        ensures some { is_some result ≡ (nat_le (length equations.now) 16 && nat_le 12864 (length scratch.old)) }
        ensures cells { cells_of self.new ≡ cells_of self.old }
        ensures settles { MatchOption result ((links_of self.new ≡ links_of self.old) × (trail_of self.new ≡ trail_of self.old)) (λ o. Settles (links_of self.old) (trail_of self.old) (links_of self.new) (trail_of self.new) o) }
        ensures means { IfSome result (λ o. UnifiedAll (S.Signature.kind signature.now) (cells_of self.old) (links_of self.old) equations.now (links_of self.new) o) }
    {
        if equations.len() > EQUATIONS || scratch.len() < SCRATCH {
            return None;
        }
        let mut pairs = Stack::new(scratch);
        push_all(&self.arena, &mut pairs, equations);
        Some(self.settle(signature, &mut pairs))
    }
}
