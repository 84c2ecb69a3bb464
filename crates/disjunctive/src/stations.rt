// A kernel, run over the stations of a sheet in both directions of time.
ghost use Rattle.std.specs.Prelude.{◌≡◌, ℕ, ◌<◌, true, map, length, slice_index, is_err, OnOk, IfOk};
ghost use Rattle.sheet.specs.Entries.{job};
ghost use Rattle.sheet.specs.Sheets.{entries};
ghost use Rattle.rule.specs.Windows.{formed};
ghost use Rattle.rule.specs.Cuts.{verdict_of, left};
ghost use Rattle.station.specs.Mirror.{mirror};
ghost use Rattle.disjunctive.specs.Gathering.{task, tasks_at};
ghost use Rattle.disjunctive.specs.StationCuts.{any_below, stations, among, station_cut};

use crate::board::Board;
use crate::starts::Starts;
use arrayvec::ArrayVec;
use rule::verdict::{Dead, Verdict};
use sheet::limits::{LAST_STATION, MAX_JOBS};
use sheet::records::Window;
use sheet::table::Sheet;
use station::kernel::{Kernel, Overload, raise_by_job};
use station::limits::MOST_TASKS;
use station::task::Task;

impl<'a> Board<'a> {
    /// The new first starts of the jobs at a station, and those as time runs back. The tasks are worked on in `tasks` and `mirrored`.
    fn raise_station<K: Kernel>(
        &self,
        station: u32,
        tasks: &mut ArrayVec<Task, MOST_TASKS>,
        mirrored: &mut ArrayVec<Task, MOST_TASKS>,
        starts: &mut Starts,
    ) -> Result<(), Overload>
        ensures load { is_err result ≡ K.Kernel.overloaded (tasks_at self.now.jobs.now self.now.windows.now station) }
        ensures lows { OnOk result ((k : ℕ) → k < length self.now.windows.now → (job self.now.jobs.now k).station ≡ station → slice_index starts.new.lows k ≡ K.Kernel.earliest (task self.now.jobs.now self.now.windows.now k) (tasks_at self.now.jobs.now self.now.windows.now station)) }
        ensures other_lows { (k : ℕ) → ((job self.now.jobs.now k).station ≡ station → ⊥) → slice_index starts.new.lows k ≡ slice_index starts.old.lows k }
        ensures backs { OnOk result ((k : ℕ) → k < length self.now.windows.now → (job self.now.jobs.now k).station ≡ station → slice_index starts.new.backs k ≡ K.Kernel.earliest (mirror (task self.now.jobs.now self.now.windows.now k)) (map mirror (tasks_at self.now.jobs.now self.now.windows.now station))) }
        ensures other_backs { (k : ℕ) → ((job self.now.jobs.now k).station ≡ station → ⊥) → slice_index starts.new.backs k ≡ slice_index starts.old.backs k }
    {
        self.gather(station, tasks, mirrored);
        // Passed over without tasks: `raise_by_job` would clear its buffer for nothing.
        if tasks.is_empty() {
            return Ok(());
        }
        raise_by_job::<K>(tasks, &mut starts.lows)?;
        raise_by_job::<K>(mirrored, &mut starts.backs)
    }

    /// The same of all stations.
    fn raise_all<K: Kernel>(&self) -> Result<Starts, Overload>
        ensures load { is_err result ≡ any_below (λ x. K.Kernel.overloaded (tasks_at self.now.jobs.now self.now.windows.now x)) stations }
        ensures lows { IfOk result (λ starts. (k : ℕ) → k < length self.now.windows.now → slice_index starts.lows k ≡ among K.Kernel.earliest self.now.jobs.now self.now.windows.now k) }
        ensures backs { IfOk result (λ starts. (k : ℕ) → k < length self.now.windows.now → slice_index starts.backs k ≡ among (λ i U. K.Kernel.earliest (mirror i) (map mirror U)) self.now.jobs.now self.now.windows.now k) }
    {
        let mut starts = Starts {
            lows: [0; MAX_JOBS],
            backs: [0; MAX_JOBS],
        };
        // Two buffers and no struct: one struct of both is cleared byte by byte, 2,000 instructions more for each look.
        let mut tasks = ArrayVec::new();
        let mut mirrored = ArrayVec::new();
        for station in 0..=LAST_STATION {
            self.raise_station::<K>(station, &mut tasks, &mut mirrored, &mut starts)?;
        }
        Ok(starts)
    }
}

/// Narrows the windows of a sheet's jobs by a kernel, or leaves them where it is dead.
pub fn propagate<K: Kernel>(sheet: &Sheet, windows: &mut [Window]) -> Verdict
    requires { formed (length (entries sheet.now).jobs) windows.old ≡ true }
    ensures answer { result ≡ verdict_of (station_cut K.Kernel.overloaded K.Kernel.earliest K.Kernel.limit (entries sheet.now).jobs windows.old) }
    ensures after { windows.new ≡ left (station_cut K.Kernel.overloaded K.Kernel.earliest K.Kernel.limit (entries sheet.now).jobs windows.old) windows.old }
{
    let jobs = sheet.jobs();
    let board = Board {
        jobs,
        windows: &*windows,
    };
    match board.raise_all::<K>() {
        Ok(starts) => starts.set_together(jobs, windows),
        Err(Overload) => Err(Dead),
    }
}
