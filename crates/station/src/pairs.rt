// Pairs: two tasks at a time.
ghost use Rattle.std.specs.Prelude.{◌≡◌, false, not, ◌&&◌, ◌==◌};
ghost use Rattle.station.specs.Tasks.{Fit, Formed};
ghost use Rattle.station.specs.Pairs.{comes_after, pairs_earliest, pairs_limit};
ghost use Rattle.station.specs.Laws.{pairs_lawful};

use crate::kernel::{Kernel, Overload};
use crate::task::Task;

/// Of two tasks of which one cannot come before the other, it comes after it.
#[derive(Clone, Copy)]
pub struct PairOrdering;

/// Whether the task cannot come before the other, which is of another job.
fn comes_after(task: Task, other: Task) -> bool
    requires task { Fit task }
    requires other { Fit other }
    ensures { result ≡ (not (other.job == task.job) && comes_after task other) }
{
    other.job != task.job && task.lo + task.span > other.end - other.span
}

/// The first start of a task after all that it cannot come before.
fn after_others(task: Task, tasks: &[Task]) -> u32
    requires fit { Fit task }
    requires formed { Formed tasks.now }
    ensures { result ≡ pairs_earliest task tasks.now }
{
    let mut lo = task.lo;
    for other in tasks {
        if comes_after(task, *other) {
            lo = lo.max(other.lo + other.span);
        }
    }
    lo
}

impl Kernel for PairOrdering {
    ghost overloaded = { λ _. false };

    ghost earliest = { pairs_earliest };

    ghost limit = { pairs_limit };

    ghost lawful = { pairs_lawful };

    fn raise(tasks: &mut [Task], lows: &mut [u32]) -> Result<(), Overload> {
        // `enumerate` and `tasks[q]`, no `zip`: after a `zip` with `lows.iter_mut()` a proof does not know what the loop wrote to `lows`.
        for (q, low) in lows.iter_mut().enumerate() {
            *low = after_others(tasks[q], tasks);
        }
        Ok(())
    }
}
