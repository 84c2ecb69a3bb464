// A rule that admits no timetable, and notices as late as the laws of a rule allow.
#![tactic(auto)]

ghost use Rattle.std.specs.Prelude.{◌≡◌};
ghost use Rattle.std.proofs.Common.{sym, ◌∙◌};
ghost use Rattle.std.proofs.lemmas.Bool.{cond-true};
ghost use Rattle.forbid_all.specs.ForbidAll.{all_single, forbid_all_cut};
ghost use Rattle.forbid_all.specs.Single.{single_test, unchanged_within};
ghost use Rattle.rule.specs.Forming.{dead_not_live};

use rule::narrowing::Rule;
use rule::verdict::{Dead, Verdict};
use sheet::records::Window;
use sheet::table::Sheet;

/// Admits nothing, narrows nothing, and is dead only where every window is a single start. A search with
/// it has to try every timetable.
#[derive(Clone, Copy)]
pub struct ForbidAll;

/// Whether every window is a single start.
fn all_single(windows: &[Window]) -> bool
    ensures { result ≡ all_single windows.now }
{
    windows.iter().all(|w| w.lo == w.hi)
}

impl Rule for ForbidAll {
    ghost admits = { λ _ _ _. ⊥ };

    ghost cut = { λ _ _ ws. forbid_all_cut ws };

    ghost lawful = { λ r e s. record {
      checking = λ ws vs f single alive. dead_not_live vs (sym (cond-true _ _ _ (single_test ws single)) ∙ alive);
      contracting = λ ws vs f alive. unchanged_within (all_single ws) ws vs f alive;
      preserving = λ ws t f admitted inside. absurd admitted;
    } };

    fn propagate(&self, _sheet: &Sheet, windows: &mut [Window]) -> Verdict {
        if all_single(windows) {
            return Err(Dead);
        }
        Ok(())
    }
}
