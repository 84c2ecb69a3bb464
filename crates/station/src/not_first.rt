// Not-first and not-last.
ghost use Rattle.std.specs.Prelude.{◌≡◌, ℕ, ◌<◌, false, length, slice_index};
ghost use Rattle.station.specs.Tasks.{at, Fit, Formed};
ghost use Rattle.station.specs.NotFirst.{not_first_earliest, not_first_limit};
ghost use Rattle.station.specs.NotFirstPasses.{slack as least_slack, front, raised_by_sooner, raised_by_any, raised_from_all};
ghost use Rattle.station.specs.Laws.{not_first_lawful};

use crate::kernel::{Kernel, Overload};
use crate::limits::{HORIZON, MOST_WORK};
use crate::order::sort_starts;
use crate::task::Task;
use std::cmp::Reverse;

/// A task that cannot come before, or after, all of a set of others comes after, or before, one of them.
#[derive(Clone, Copy)]
pub struct NotFirstNotLast;

/// From the earliest end to the latest, for the tasks that are complete at `ready` or later: the least of an end less the
/// work up to there.
fn raise_by_sooner(tasks: &[Task], lows: &mut [u32], ready: u32) -> u32
    requires formed { Formed tasks.now }
    requires len { length lows.old ≡ length tasks.now }
    ensures slack { result ≡ least_slack ready tasks.now }
    ensures lows { (q : ℕ) → q < length tasks.now → slice_index lows.new q ≡ raised_by_sooner ready tasks.now q (slice_index lows.old q) }
{
    let mut work: u32 = 0;
    let mut slack: u32 = 2 * HORIZON + MOST_WORK;
    // `enumerate` and `lows[k]`, no `zip`: after a `zip` with `lows.iter_mut()` a proof does not know what the loop wrote to `lows`.
    for (k, t) in tasks.iter().enumerate().rev() {
        let complete = t.lo + t.span;
        if complete >= ready {
            if slack < complete + MOST_WORK {
                lows[k] = lows[k].max(ready);
            }
            work += t.span;
            slack = slack.min(t.end + MOST_WORK - work);
        }
    }
    slack
}

/// From when on the task has to fit in front of all others: its own work is in their slack already where it counts there.
fn front_of(task: Task, ready: u32) -> u32
    requires { Fit task }
    ensures { result ≡ front ready task }
{
    let complete = task.lo + task.span;
    if complete >= ready { task.lo } else { complete }
}

/// All tasks once more, with the slack of them all.
fn raise_by_any(tasks: &[Task], lows: &mut [u32], ready: u32, slack: u32)
    requires formed { Formed tasks.now }
    requires len { length lows.old ≡ length tasks.now }
    requires slack { slack ≡ least_slack ready tasks.now }
    ensures { (q : ℕ) → q < length tasks.now → slice_index lows.new q ≡ raised_by_any ready tasks.now q (slice_index lows.old q) }
{
    // `enumerate` and `lows[k]`, no `zip`: after a `zip` with `lows.iter_mut()` a proof does not know what the loop wrote to `lows`.
    for (k, t) in tasks.iter().enumerate() {
        if slack < front_of(*t, ready) + MOST_WORK {
            lows[k] = lows[k].max(ready);
        }
    }
}

/// The passes for the completion of each task, from the first starts as they are.
fn raise_from_all(tasks: &[Task], lows: &mut [u32])
    requires formed { Formed tasks.now }
    requires len { length lows.old ≡ length tasks.now }
    requires starts { (q : ℕ) → q < length tasks.now → slice_index lows.old q ≡ (at tasks.now q).lo }
    ensures { (q : ℕ) → q < length tasks.now → slice_index lows.new q ≡ raised_from_all tasks.now q (length tasks.now) }
{
    for t in tasks {
        let ready = t.lo + t.span;
        let slack = raise_by_sooner(tasks, lows, ready);
        raise_by_any(tasks, lows, ready, slack);
    }
}

impl Kernel for NotFirstNotLast {
    ghost overloaded = { λ _. false };

    ghost earliest = { not_first_earliest };

    ghost limit = { not_first_limit };

    ghost lawful = { not_first_lawful };

    fn raise(tasks: &mut [Task], lows: &mut [u32]) -> Result<(), Overload> {
        sort_starts(tasks, lows, |t| Reverse(t.end));
        raise_from_all(tasks, lows);
        Ok(())
    }
}
