//! Proves the laws of scripts. The contract of each function is the law.

ghost use Rattle.std.specs.Prelude.{◌≡◌, ◌≤◌, ℕ, List, Some, false, slice_get};
ghost use Rattle.wire_msg.specs.{Content};
ghost use Rattle.script_rules.specs.Meeting.{IsFirstLive, first_met, met, uses};
ghost use Rattle.script_rules.specs.Rules.{RuleView};

/// Proves that a request meets the first live rule that it is for, and that what is done with it is
/// what that rule does.
pub fn the_first_live_rule_is_met()
    ensures first { (c : Content) (rs : List RuleView) (i : ℕ) → first_met c rs ≡ Some i
        → IsFirstLive c rs i }
    ensures only { (c : Content) (rs : List RuleView) (i : ℕ) → IsFirstLive c rs i
        → first_met c rs ≡ Some i }
    ensures done { (c : Content) (rs : List RuleView) (i : ℕ) (r : RuleView)
        → first_met c rs ≡ Some i → slice_get rs i ≡ Some r → met c rs ≡ Some r.action }
{}

/// Proves that a rule is used at most as often as it says, whatever requests come.
pub fn a_rule_is_used_as_often_as_it_says()
    ensures { (i n : ℕ) (r : RuleView) (cs : List Content) (rs : List RuleView)
        → slice_get rs i ≡ Some r → r.left ≡ Some n → uses i cs rs ≤ n }
{}
