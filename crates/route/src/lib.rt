// Route: the links of a sheet as a narrowing rule.
#![tactic(auto)]

ghost use Rattle.std.specs.Prelude.{◌≡◌, true, length};
ghost use Rattle.sheet.specs.Sound.{AllEntered, AllLinked};
ghost use Rattle.rule.specs.Windows.{formed};
ghost use Rattle.rule.specs.Bounds.{between, tabulate};
ghost use Rattle.route.specs.Route.{AllHold, earliest_start, past_latest_start, route_cut};
ghost use Rattle.rule.proofs.Bounding.{together_within};
ghost use Rattle.route.specs.Links.{earliest_not_sooner, latest_not_later, route_keeps, route_checks};

use rule::narrowing::Rule;
use rule::verdict::Verdict;
use rule::windows::{copy_of, put_in_place};
use sheet::records::{Job, Link, Window};
use sheet::table::Sheet;

/// Admits a timetable if every link holds: its second job starts no sooner than the end of its first
/// plus the wait.
#[derive(Clone, Copy)]
pub struct Route;

/// Narrows the two windows of each link by one another, all from the windows as handed. A last start
/// below zero is put down as 0: the link's second job then starts too late, so the rule is dead anyway.
fn tighten(jobs: &[Job], links: &[Link], windows: &[Window], narrowed: &mut [Window])
    requires entered { AllEntered jobs.now }
    requires linked { AllLinked (length jobs.now) links.now }
    requires formed { formed (length jobs.now) windows.now ≡ true }
    requires copy { narrowed.old ≡ windows.now }
    ensures { narrowed.new ≡ tabulate (between (earliest_start jobs.now windows.now links.now) (past_latest_start jobs.now windows.now links.now)) (length windows.now) }
{
    for link in links {
        let first = windows[link.from];
        let second = windows[link.to];
        let lag = jobs[link.from].duration + link.wait;
        let lo = first.lo + lag;
        let hi = second.hi.saturating_sub(lag);
        narrowed[link.to].lo = narrowed[link.to].lo.max(lo);
        narrowed[link.from].hi = narrowed[link.from].hi.min(hi);
    }
}

impl Rule for Route {
    ghost admits = { λ _ e t. AllHold e t };

    ghost cut = { λ _ e ws. route_cut e ws };

    ghost lawful = { λ r e s.
        record {
          contracting = λ ws vs f alive. together_within _ _ ws vs alive (λ k h. earliest_not_sooner e.jobs ws e.links k) (λ k h. latest_not_later e.jobs ws e.links k);
          preserving = λ ws t f holds inside. route_keeps e s ws f t holds inside;
          checking = λ ws vs f single alive. route_checks e s ws f vs single alive;
        } };

    fn propagate(&self, sheet: &Sheet, windows: &mut [Window]) -> Verdict {
        let mut narrowed = copy_of(windows);
        tighten(
            sheet.jobs(),
            sheet.links(),
            windows,
            narrowed.as_mut_slice(),
        );
        put_in_place(windows, narrowed.as_slice())
    }
}
