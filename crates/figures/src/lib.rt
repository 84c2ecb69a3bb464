// The worked figures, proved of the definitions that the planner's contracts cite.
#![tactic(auto)]

ghost use Rattle.std.specs.Prelude.{◌≡◌};
ghost use Rattle.figures.specs.Figures.{Figures};

/// How many worked figures stand.
pub fn figures_stand() -> usize
    ensures number { result ≡ 11 }
    ensures figures { Figures }
{
    11
}
