// Tests of windows, and copies of them.
ghost use Rattle.std.specs.Prelude.{◌≡◌, ◌≤◌, length};
ghost use Rattle.rule.specs.Windows.{all_fine, formed};
ghost use Rattle.rule.specs.Cuts.{verdict_of, left};
ghost use Rattle.rule.specs.Bounds.{if_fine};

use crate::verdict::{Dead, Verdict};
use arrayvec::ArrayVec;
use sheet::limits::{LAST_MINUTE, MAX_JOBS};
use sheet::records::Window;

/// Whether each can be the window of a job: no first start after its last, and no start after the last minute.
fn all_fine(windows: &[Window]) -> bool
    ensures { result ≡ all_fine windows.now }
{
    windows.iter().all(|w| w.lo <= w.hi && w.hi <= LAST_MINUTE)
}

/// Whether these can be the windows of so many jobs: one for each, and each can be one.
pub fn well_formed(jobs: usize, windows: &[Window]) -> bool
    ensures { result ≡ formed jobs windows.now }
{
    windows.len() == jobs && all_fine(windows)
}

/// A copy of the windows of a sheet's jobs.
// Filled where it is, and no `try_from`: a vector in a `Result` is moved twice, twice the time of a rule on few jobs.
pub fn copy_of(windows: &[Window]) -> ArrayVec<Window, MAX_JOBS>
    requires { length windows.now ≤ 48 }
    ensures { result.items ≡ windows.now }
{
    let mut copy = ArrayVec::new();
    let _ = copy.try_extend_from_slice(windows);
    copy
}

/// Puts narrowed windows in the place of the old, or is dead where one of them cannot be the window of a job.
pub fn put_in_place(windows: &mut [Window], narrowed: &[Window]) -> Verdict
    requires { length narrowed.now ≡ length windows.old }
    ensures answer { result ≡ verdict_of (if_fine narrowed.now) }
    ensures after { windows.new ≡ left (if_fine narrowed.now) windows.old }
{
    if !all_fine(narrowed) {
        return Err(Dead);
    }
    windows.copy_from_slice(narrowed);
    Ok(())
}
