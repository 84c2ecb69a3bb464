// Edge finding.
ghost use Rattle.std.specs.Prelude.{◌≡◌, ℕ, ◌<◌, length, nat_lt, slice_index, is_err, OnOk};
ghost use Rattle.std.specs.List.{list_any};
ghost use Rattle.station.specs.Tasks.{at, Formed};
ghost use Rattle.station.specs.Edges.{edges_overloaded, edges_earliest, edges_limit};
ghost use Rattle.station.specs.EdgesPasses.{work_of, ends_by, completion_by, raised_by_later, raised_by_earlier, raised_by_both, raised_by_all, passes_end};
ghost use Rattle.station.specs.Laws.{edges_lawful};

use crate::kernel::{Kernel, Overload};
use crate::order::sort_starts;
use crate::task::Task;

/// A task that has to end after, or to start before, all of a set of others does so.
#[derive(Clone, Copy)]
pub struct EdgeFinding;

/// From the last task down, for the sets that end by `bound`: their work, and the greatest of a start and the work from
/// there on.
fn raise_by_later(tasks: &[Task], lows: &mut [u32], bound: u32) -> (u32, u32)
    requires formed { Formed tasks.now }
    requires len { length lows.old ≡ length tasks.now }
    ensures work { result.0 ≡ work_of (ends_by bound) tasks.now }
    ensures completion { result.1 ≡ completion_by bound tasks.now }
    ensures lows { (q : ℕ) → q < length tasks.now → slice_index lows.new q ≡ raised_by_later bound tasks.now q (slice_index lows.old q) }
{
    let mut work: u32 = 0;
    let mut completion: u32 = 0;
    // `enumerate` and `lows[k]`, no `zip`: after a `zip` with `lows.iter_mut()` a proof does not know what the loop wrote to `lows`.
    for (k, t) in tasks.iter().enumerate().rev() {
        if t.end <= bound {
            work += t.span;
            completion = completion.max(t.lo + work);
        } else if t.lo + t.span + work > bound {
            lows[k] = lows[k].max(completion);
        }
    }
    (work, completion)
}

/// From the first task up, with what `raise_by_later` told.
fn raise_by_earlier(tasks: &[Task], lows: &mut [u32], bound: u32, work: u32, completion: u32)
    requires formed { Formed tasks.now }
    requires len { length lows.old ≡ length tasks.now }
    requires work { work ≡ work_of (ends_by bound) tasks.now }
    requires completion { completion ≡ completion_by bound tasks.now }
    ensures { (q : ℕ) → q < length tasks.now → slice_index lows.new q ≡ raised_by_earlier bound tasks.now q (slice_index lows.old q) }
{
    let mut rest = work;
    let mut peak: u32 = 0;
    // `enumerate` and `lows[k]`, no `zip`: after a `zip` with `lows.iter_mut()` a proof does not know what the loop wrote to `lows`.
    for (k, t) in tasks.iter().enumerate() {
        if t.end <= bound {
            peak = peak.max(t.lo + rest);
            rest -= t.span;
        } else if peak + t.span > bound {
            lows[k] = lows[k].max(completion);
        }
    }
}

/// Both passes for the sets that end by `bound`.
fn raise_by_both(tasks: &[Task], lows: &mut [u32], bound: u32) -> Result<(), Overload>
    requires formed { Formed tasks.now }
    requires len { length lows.old ≡ length tasks.now }
    ensures load { is_err result ≡ nat_lt bound (completion_by bound tasks.now) }
    ensures lows { OnOk result ((q : ℕ) → q < length tasks.now → slice_index lows.new q ≡ raised_by_both bound tasks.now q (slice_index lows.old q)) }
{
    let (work, completion) = raise_by_later(tasks, lows, bound);
    if completion > bound {
        return Err(Overload);
    }
    raise_by_earlier(tasks, lows, bound, work, completion);
    Ok(())
}

/// The passes for the end of each task, from the first starts as they are.
fn raise_by_all(tasks: &[Task], lows: &mut [u32]) -> Result<(), Overload>
    requires formed { Formed tasks.now }
    requires len { length lows.old ≡ length tasks.now }
    requires starts { (q : ℕ) → q < length tasks.now → slice_index lows.old q ≡ (at tasks.now q).lo }
    ensures load { is_err result ≡ list_any (passes_end tasks.now) tasks.now }
    ensures lows { OnOk result ((q : ℕ) → q < length tasks.now → slice_index lows.new q ≡ raised_by_all tasks.now q (length tasks.now)) }
{
    for t in tasks {
        raise_by_both(tasks, lows, t.end)?;
    }
    Ok(())
}

impl Kernel for EdgeFinding {
    ghost overloaded = { edges_overloaded };

    ghost earliest = { edges_earliest };

    ghost limit = { edges_limit };

    ghost lawful = { edges_lawful };

    fn raise(tasks: &mut [Task], lows: &mut [u32]) -> Result<(), Overload> {
        sort_starts(tasks, lows, |t| t.lo);
        raise_by_all(tasks, lows)
    }
}
