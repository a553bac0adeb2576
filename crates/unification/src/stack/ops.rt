ghost use Rattle.std.specs.Prelude.{◌≡◌, ℕ, ◌+◌, ◌-◌, ◌<◌, ◌≤◌, Bool, true, false, T, List, [], ◌∷◌, ◌++◌, length, if◌then◌else◌, is_ok, MatchOption, MatchResult, ◌==◌, nat_lt};
ghost use Rattle.unification.specs.Held.{held, room, count};

use super::Stack;

impl<'a, R: Copy> Stack<'a, R> {
    pub fn new(items: &'a mut [R]) -> Self
        ensures held { held result ≡ [] }
        ensures count { count result ≡ 0 }
        ensures room { room result ≡ length items.old }
    {
        Stack { items, len: 0 }
    }

    // One record more, or the record back where the slice is full, and then nothing changes.
    pub fn push(&mut self, x: R) -> Result<(), R>
        ensures told { is_ok result ≡ nat_lt (count self.old) (room self.old) }
        ensures held { MatchResult result (λ _. held self.new ≡ x ∷ held self.old) (λ back. (back ≡ x) × (held self.new ≡ held self.old)) }
        ensures count { count self.new ≡ (if is_ok result then count self.old + 1 else count self.old) }
        ensures room { room self.new ≡ room self.old }
    {
        if self.len == self.items.len() {
            return Err(x);
        }
        self.put(x);
        Ok(())
    }

    // One record more, where there is room.
    pub fn put(&mut self, x: R)
        requires { count self.old < room self.old }
        ensures held { held self.new ≡ x ∷ held self.old }
        ensures count { count self.new ≡ count self.old + 1 }
        ensures room { room self.new ≡ room self.old }
    {
        self.items[self.len] = x;
        self.len += 1;
    }

    pub fn pop(&mut self) -> Option<R>
        ensures held { MatchOption result ((held self.old ≡ []) × (held self.new ≡ [])) (λ x. held self.old ≡ x ∷ held self.new) }
        ensures count { MatchOption result ((count self.old ≡ 0) × (count self.new ≡ 0)) (λ x. count self.old ≡ count self.new + 1) }
        ensures room { room self.new ≡ room self.old }
    {
        self.len = self.len.checked_sub(1)?;
        Some(self.items[self.len])
    }

    // Whether nothing is on the stack.
    pub fn is_empty(&self) -> bool
        ensures value { result ≡ (count self.now == 0) }
        ensures none { result ≡ true → held self.now ≡ [] }
    {
        self.len == 0
    }

    pub fn top(&self) -> Option<R>
        ensures { MatchOption result (held self.now ≡ []) (λ x. (rest : List R) × (held self.now ≡ x ∷ rest)) }
    {
        self.items[..self.len].last().copied()
    }

    pub fn len(&self) -> usize
        ensures { result ≡ count self.now }
    {
        self.len
    }
}
