// What the outcomes have in common.
ghost use Rattle.unification.specs.Outcomes.{OneOutcome};
ghost use Rattle.unification.specs.Standing.{FollowsRules};

// Equations have one outcome.
pub fn laws_stand()
    ensures { OneOutcome }
{}

// The outcome that has its meaning is the one to which the rules come, in every order.
pub fn outcome_is_the_rules()
    ensures { FollowsRules }
{}
