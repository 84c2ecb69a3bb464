// What every kernel is, and the new first starts of a station's tasks by job number.
ghost use Rattle.std.specs.Prelude.{◌≡◌, ℕ, ◌<◌, ◌≤◌, Bool, List, length, ◌≢◌, slice_index, is_err, All, OnOk, IsPermutation};
ghost use Rattle.station.specs.declared.task.Task.{Task};
ghost use Rattle.station.specs.Limits.{most_tasks};
ghost use Rattle.station.specs.Tasks.{at, Formed};
ghost use Rattle.station.specs.Kernels.{Lawful};

use crate::limits::MOST_TASKS;
use crate::task::Task;

/// The tasks of a station take longer than they have: what was worked out of their starts means nothing.
#[derive(Clone, Copy, PartialEq, Eq, Debug)]
pub struct Overload;

/// A way to narrow the windows of one station's tasks.
///
/// It works on the side of the first starts alone: the side of the last starts is the same as time runs back.
pub trait Kernel {
    ghost overloaded: { List Task → Bool };

    ghost earliest: { Task → List Task → ℕ };

    ghost limit: { Task → List Task → ℕ };

    /// The new first starts, by the places that the tasks have afterwards.
    // Two slices and no struct: of both, each pass would have to promise that its tasks stay; one of the tasks alone was
    // not found plainer, since sorting and this function take `&mut [Task]` and could not use it.
    // Into `lows`, and no value: an `ArrayVec` in the result is moved twice, 4 to 6 percent more instructions for a look
    // with six jobs at a station.
    fn raise(tasks: &mut [Task], lows: &mut [u32]) -> Result<(), Overload>
        requires formed { Formed tasks.old }
        requires len { length lows.old ≡ length tasks.old }
        ensures load { is_err result ≡ overloaded tasks.old }
        ensures shuffled { IsPermutation tasks.old tasks.new }
        ensures raised { OnOk result ((q : ℕ) → q < length tasks.old → slice_index lows.new q ≡ earliest (at tasks.new q) tasks.old) };

    ghost lawful: { Lawful overloaded earliest limit };
}

/// Writes the values of the tasks to `out` by job number.
fn scatter(tasks: &[Task], values: &[u32], out: &mut [u32])
    requires formed { Formed tasks.now }
    requires len { length values.now ≡ length tasks.now }
    requires few { length out.old ≤ most_tasks }
    requires numbered { All (λ t. t.job < length out.old) tasks.now }
    ensures written { (q : ℕ) → q < length tasks.now → slice_index out.new (at tasks.now q).job ≡ slice_index values.now q }
    ensures kept { (j : ℕ) → All (λ t. t.job ≢ j) tasks.now → slice_index out.new j ≡ slice_index out.old j }
{
    for (t, value) in tasks.iter().zip(values) {
        out[t.job] = *value;
    }
}

/// The new first starts of the tasks of one station, written to `out` by job number.
pub fn raise_by_job<K: Kernel>(tasks: &mut [Task], out: &mut [u32]) -> Result<(), Overload>
    requires formed { Formed tasks.old }
    requires few { length out.old ≤ most_tasks }
    requires numbered { All (λ t. t.job < length out.old) tasks.old }
    ensures load { is_err result ≡ K.Kernel.overloaded tasks.old }
    ensures raised { OnOk result (All (λ t. slice_index out.new t.job ≡ K.Kernel.earliest t tasks.old) tasks.old) }
    ensures kept { (j : ℕ) → All (λ t. t.job ≢ j) tasks.old → slice_index out.new j ≡ slice_index out.old j }
{
    let mut store = [0; MOST_TASKS];
    let lows = &mut store[0..tasks.len()];
    K::raise(tasks, lows)?;
    scatter(tasks, lows, out);
    Ok(())
}
