// The step limit at which the tree is cut, and the allowance of steps for the whole tree.
ghost use Rattle.std.specs.Prelude.{◌≡◌, ◌<◌, ◌≤◌, MatchResult};

use crate::Refusal;

const MOST_STEPS: u8 = 32;

const MOST_ALLOWED: u32 = 1000000;

#[derive(Clone, Copy, Debug, PartialEq, Eq)]
pub struct Settings {
    limit: u8,
    allowance: u32,
    ghost limited: { (1 ≤ limit) × (limit ≤ 32) },
    ghost allowed: { (1 ≤ allowance) × (allowance ≤ 1000000) },
}

impl Settings {
    // A limit of 1 to 32 steps and an allowance of 1 to 1,000,000, or the refusal.
    pub fn new(limit: u8, allowance: u32) -> Result<Settings, Refusal>
        ensures made { MatchResult result (λ s. (s.limit ≡ limit) × (s.allowance ≡ allowance)) (λ e. e ≡ Refusal.Settings) }
        ensures refused { MatchResult result (λ _. (1 ≤ limit) × (limit ≤ 32) × (1 ≤ allowance) × (allowance ≤ 1000000)) (λ _. 1 ≤ limit → limit ≤ 32 → 1 ≤ allowance → allowance ≤ 1000000 → ⊥) }
    {
        if !(1..=MOST_STEPS).contains(&limit) || !(1..=MOST_ALLOWED).contains(&allowance) {
            return Err(Refusal::Settings);
        }
        Ok(Settings { limit, allowance })
    }

    pub fn limit(&self) -> u8
        ensures { result ≡ self.now.limit }
    {
        self.limit
    }

    pub fn allowance(&self) -> u32
        ensures { result ≡ self.now.allowance }
    {
        self.allowance
    }
}
