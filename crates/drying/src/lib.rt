// Glue drying: an example of a rule by a joint author.
#![tactic(auto)]

ghost use Rattle.std.specs.Prelude.{◌≡◌, ◌+◌, ◌<◌, length};
ghost use Rattle.sheet.specs.Sound.{AllLinked};
ghost use Rattle.rule.specs.Windows.{window};
ghost use Rattle.rule.specs.Bounds.{between, tabulate};
ghost use Rattle.drying.specs.Drying.{AllDry, dry_at, earliest_start, drying_cut};
ghost use Rattle.std.proofs.Common.{arith};
ghost use Rattle.rule.proofs.Bounding.{together_within};
ghost use Rattle.drying.specs.Links.{earliest_not_sooner, drying_keeps, drying_checks};

use rule::narrowing::Rule;
use rule::verdict::Verdict;
use rule::windows::{copy_of, put_in_place};
use sheet::limits::LAST_MINUTE;
use sheet::records::{Job, Link, Window};
use sheet::table::Sheet;

/// Glue laid at the station `glue` has to dry before the station `next` takes the timber: a job at `next`
/// that is linked from a job at `glue` starts no sooner than the end of that job plus the minutes.
#[derive(Clone, Copy)]
pub struct Drying {
    pub glue: u32,
    pub next: u32,
    pub minutes: u32,
}

impl Drying {
    /// The first start that a link leaves its second job: when the glue of its first is dry, at the
    /// soonest. Where no glue dries, it leaves them all.
    fn dry_at(&self, jobs: &[Job], windows: &[Window], link: Link) -> u32
        requires windows { length windows.now ≡ length jobs.now }
        requires first { link.from < length jobs.now }
        requires second { link.to < length jobs.now }
        ensures { result ≡ dry_at self.now jobs.now windows.now link }
    {
        let first = jobs[link.from];
        if first.station != self.glue || jobs[link.to].station != self.next {
            return 0;
        }
        let end = windows[link.from].lo.saturating_add(first.duration);
        end.saturating_add(self.minutes).min(LAST_MINUTE + 1)
    }

    /// Raises the first starts, all from the windows as handed.
    fn raise(&self, jobs: &[Job], links: &[Link], windows: &[Window], narrowed: &mut [Window])
        requires linked { AllLinked (length jobs.now) links.now }
        requires windows { length windows.now ≡ length jobs.now }
        requires copy { narrowed.old ≡ windows.now }
        ensures { narrowed.new ≡ tabulate (between (earliest_start self.now jobs.now windows.now links.now) (λ k. (window windows.now k).hi + 1)) (length windows.now) }
    {
        for link in links {
            let dry = self.dry_at(jobs, windows, *link);
            narrowed[link.to].lo = narrowed[link.to].lo.max(dry);
        }
    }
}

impl Rule for Drying {
    ghost admits = { λ r e t. AllDry r e t };

    ghost cut = { λ r e ws. drying_cut r e ws };

    ghost lawful = { λ r e s.
        record {
          contracting = λ ws vs f alive. together_within _ _ ws vs alive (λ k h. earliest_not_sooner r e.jobs ws e.links k) (λ k h. omega arith);
          preserving = λ ws t f dry inside. drying_keeps r e s ws f t dry inside;
          checking = λ ws vs f single alive. drying_checks r e s ws f vs single alive;
        } };

    fn propagate(&self, sheet: &Sheet, windows: &mut [Window]) -> Verdict {
        let mut narrowed = copy_of(windows);
        self.raise(
            sheet.jobs(),
            sheet.links(),
            windows,
            narrowed.as_mut_slice(),
        );
        put_in_place(windows, narrowed.as_slice())
    }
}
