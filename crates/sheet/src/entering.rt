// What a sheet takes and what it refuses: enter a job, link two jobs, move a job in time.
ghost use Rattle.std.specs.Prelude.{◌≡◌, ℕ, ◌<◌, length};
ghost use Rattle.sheet.specs.Entries.{no_entries, with_job, with_link, with_job_at, job_of, link_of, moved};
ghost use Rattle.sheet.specs.Sheets.{entries};
ghost use Rattle.sheet.specs.Sound.{Entered, Linked};
ghost use Rattle.sheet.specs.Entering.{has_link, enter_answer, link_answer, move_answer, taken};

use crate::limits::{LAST_MINUTE, LAST_STATION, MAX_DURATION, MAX_JOBS, MAX_LINKS, MAX_WAIT};
use crate::records::{Job, Link};
use crate::refusal::Refusal;
use crate::table::Sheet;
use arrayvec::ArrayVec;

/// Whether one of the links goes from one job to the other.
fn has_link(links: &[Link], from: usize, to: usize) -> bool
    ensures { result ≡ has_link links.now from to }
{
    links.iter().any(|link| link.from == from && link.to == to)
}

impl Sheet {
    /// A sheet with no job and no link.
    pub fn new() -> Sheet
        ensures { entries result ≡ no_entries }
    {
        Sheet {
            jobs: ArrayVec::new(),
            links: ArrayVec::new(),
        }
    }

    /// The jobs, by number.
    pub fn jobs(&self) -> &[Job]
        ensures { result.now ≡ (entries self.now).jobs }
    {
        self.jobs.as_slice()
    }

    /// The links, in order of entry.
    pub fn links(&self) -> &[Link]
        ensures { result.now ≡ (entries self.now).links }
    {
        self.links.as_slice()
    }

    /// Adds a job and answers its number.
    // Four numbers and no Job, here and in link and move: every caller has them one by one, and would write out a Job
    // for this call to take apart.
    pub fn enter(
        &mut self,
        station: u32,
        duration: u32,
        release: u32,
        due: u32,
    ) -> Result<u32, Refusal>
        ensures answer { result ≡ enter_answer (entries self.old) (job_of station duration release due) }
        ensures sheet { entries self.new ≡ taken result (entries self.old) (with_job (entries self.old) (job_of station duration release due)) }
    {
        let number = self.jobs().len();
        if number >= MAX_JOBS {
            return Err(Refusal::SheetFull);
        }
        if station > LAST_STATION {
            return Err(Refusal::UnknownStation);
        }
        if duration == 0 || duration > MAX_DURATION {
            return Err(Refusal::DurationOutOfRange);
        }
        if release > LAST_MINUTE || due > LAST_MINUTE {
            return Err(Refusal::TimeOutOfRange);
        }
        if release + duration > due {
            return Err(Refusal::WindowTooShort);
        }
        self.jobs.push(Job {
            station,
            duration,
            release,
            due,
        });
        Ok(number as u32)
    }

    /// Adds a link: job `to` starts no sooner than the end of job `from` plus the wait.
    pub fn link(&mut self, from: u32, to: u32, wait: u32) -> Result<(), Refusal>
        ensures answer { result ≡ link_answer (entries self.old) (link_of from to wait) }
        ensures sheet { entries self.new ≡ taken result (entries self.old) (with_link (entries self.old) (link_of from to wait)) }
    {
        let from = from as usize;
        let to = to as usize;
        let jobs = self.jobs().len();
        if from >= jobs || to >= jobs {
            return Err(Refusal::UnknownJob);
        }
        if from == to {
            return Err(Refusal::SelfLink);
        }
        if wait > MAX_WAIT {
            return Err(Refusal::WaitTooLong);
        }
        let links = self.links();
        if has_link(links, from, to) {
            return Err(Refusal::DuplicateLink);
        }
        if links.len() >= MAX_LINKS {
            return Err(Refusal::LinksFull);
        }
        self.links.push(Link { from, to, wait });
        Ok(())
    }

    /// Gives a job a new release and due time, and leaves every other job and every link.
    pub fn move_job(&mut self, job: u32, release: u32, due: u32) -> Result<(), Refusal>
        ensures answer { result ≡ move_answer (entries self.old) job release due }
        ensures sheet { entries self.new ≡ taken result (entries self.old) (moved (entries self.old) job release due) }
    {
        let number = job as usize;
        let jobs = self.jobs();
        if number >= jobs.len() {
            return Err(Refusal::UnknownJob);
        }
        if release > LAST_MINUTE || due > LAST_MINUTE {
            return Err(Refusal::TimeOutOfRange);
        }
        let old = jobs[number];
        if release + old.duration > due {
            return Err(Refusal::WindowTooShort);
        }
        self.jobs.as_mut_slice()[number] = Job {
            release,
            due,
            ..old
        };
        Ok(())
    }
}
