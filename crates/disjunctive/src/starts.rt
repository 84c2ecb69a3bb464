// The new first starts of all jobs in both directions of time, and the windows that they make.
ghost use Rattle.std.specs.Prelude.{◌≡◌, ℕ, ◌+◌, ◌-◌, ◌<◌, ◌≤◌, true, length, slice_index, Bool};
ghost use Rattle.rule.specs.Windows.{formed};
ghost use Rattle.rule.specs.Cuts.{verdict_of, left};
ghost use Rattle.rule.specs.Bounds.{all_open, together};
ghost use Rattle.station.specs.Limits.{horizon};
ghost use Rattle.disjunctive.specs.Gathering.{span};

use rule::verdict::{Dead, Verdict};
use sheet::limits::MAX_JOBS;
use sheet::records::{Job, Window};
use station::limits::HORIZON;

/// New first starts, by job number.
// Two arrays and not one of pairs: `raise_by_job` writes one direction of time into a plain slice.
#[derive(Clone, Copy)]
pub struct Starts {
    /// The first starts.
    pub lows: [u32; MAX_JOBS],
    /// The first starts as time runs back.
    pub backs: [u32; MAX_JOBS],
}

impl Starts {
    /// The least start that a job may not have any more.
    fn limit(&self, number: usize, job: Job) -> u32
        requires { number < 48 }
        ensures { result ≡ horizon + 1 - (slice_index self.now.backs number + job.duration) }
    {
        (HORIZON + 1)
            .saturating_sub(job.duration)
            .saturating_sub(self.backs[number])
    }

    /// Whether a start is left to each job.
    fn all_open(&self, jobs: &[Job]) -> bool
        requires { length jobs.now ≤ 48 }
        ensures { result ≡ all_open (λ k. slice_index self.now.lows k) (λ k. horizon + 1 - (slice_index self.now.backs k + span jobs.now k)) (length jobs.now) }
    {
        jobs.iter().enumerate().all(|(number, job)| self.lows[number] < self.limit(number, *job))
    }

    /// Sets the first starts, and the last starts by what the first are as time runs back; dead if a first start passes its last.
    pub fn set_together(&self, jobs: &[Job], windows: &mut [Window]) -> Verdict
        requires formed { formed (length jobs.now) windows.old ≡ true }
        requires few { length jobs.now ≤ 48 }
        ensures answer { result ≡ verdict_of (together (λ k. slice_index self.now.lows k) (λ k. horizon + 1 - (slice_index self.now.backs k + span jobs.now k)) (length windows.old)) }
        ensures after { windows.new ≡ left (together (λ k. slice_index self.now.lows k) (λ k. horizon + 1 - (slice_index self.now.backs k + span jobs.now k)) (length windows.old)) windows.old }
    {
        if !self.all_open(jobs) {
            return Err(Dead);
        }
        // `enumerate` and numbers, no `zip`: after a `zip` with `windows.iter_mut()` a proof does not know what the loop wrote to `windows`.
        for (number, window) in windows.iter_mut().enumerate() {
            let lo = self.lows[number];
            let hi = self.limit(number, jobs[number]) - 1;
            *window = Window { lo, hi };
        }
        Ok(())
    }
}
