// The jobs of a sheet beside their windows, and the tasks of a station out of them.
ghost use Rattle.std.specs.Prelude.{◌≡◌, ◌≤◌, true, map, length};
ghost use Rattle.sheet.specs.Sound.{AllEntered};
ghost use Rattle.rule.specs.Windows.{formed};
ghost use Rattle.station.specs.Mirror.{mirror};
ghost use Rattle.disjunctive.specs.Gathering.{tasks_at};

use arrayvec::ArrayVec;
use sheet::records::{Job, Window};
use station::limits::MOST_TASKS;
use station::task::Task;

/// Jobs as a sheet has them, and well-formed windows of theirs.
#[derive(Clone, Copy)]
pub struct Board<'a> {
    /// The jobs, by number.
    pub jobs: &'a [Job],
    /// The window of each job.
    pub windows: &'a [Window],
    ghost entered: { AllEntered jobs.now },
    ghost formed: { formed (length jobs.now) windows.now ≡ true },
    ghost few: { length jobs.now ≤ 48 },
}

impl<'a> Board<'a> {
    /// Makes `tasks` the jobs at a station with their windows, by number, and `mirrored` the same as time runs back.
    pub fn gather(
        &self,
        station: u32,
        tasks: &mut ArrayVec<Task, MOST_TASKS>,
        mirrored: &mut ArrayVec<Task, MOST_TASKS>,
    )
        ensures tasks { tasks.new.items ≡ tasks_at self.now.jobs.now self.now.windows.now station }
        ensures mirrored { mirrored.new.items ≡ map mirror (tasks_at self.now.jobs.now self.now.windows.now station) }
    {
        tasks.clear();
        mirrored.clear();
        for (number, (job, window)) in self.jobs.iter().zip(self.windows).enumerate() {
            if job.station == station {
                let task = Task {
                    lo: window.lo,
                    span: job.duration,
                    end: window.hi + job.duration,
                    job: number,
                };
                tasks.push(task);
                mirrored.push(task.mirrored());
            }
        }
    }
}
