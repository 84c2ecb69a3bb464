// The windows that a sheet's jobs were entered with, and the starts that single windows give.
ghost use Rattle.std.specs.Prelude.{◌≡◌, ◌≤◌, length};
ghost use Rattle.sheet.specs.Sheets.{entries};
ghost use Rattle.rule.specs.Windows.{starts as starts_of};
ghost use Rattle.search.specs.Entered.{entered_window, entered_windows};
ghost use Rattle.search.specs.Counting.{Counted};

use arrayvec::ArrayVec;
use sheet::limits::MAX_JOBS;
use sheet::records::{Job, Window};
use sheet::table::Sheet;

/// The window that a job was entered with: from its release to its due time less its duration.
// No From: it asks that the job is one that was entered, and From asks nothing.
fn entered_window(job: Job) -> Window
    requires { job.duration ≤ job.due }
    ensures { result ≡ entered_window job }
{
    Window {
        lo: job.release,
        hi: job.due - job.duration,
    }
}

/// Each job's entered window.
/// The timetables within these windows can be listed, and are as many as the widths' product says.
pub fn entered_windows(sheet: &Sheet) -> ArrayVec<Window, MAX_JOBS>
    ensures entered { result.items ≡ entered_windows (entries sheet.now) }
    ensures counted { Counted result.items }
{
    let mut windows = ArrayVec::new();
    for job in sheet.jobs() {
        windows.push(entered_window(*job));
    }
    windows
}

/// The first start of each window.
pub fn first_starts<const N: usize>(windows: &[Window]) -> ArrayVec<u32, N>
    requires { length windows.now ≤ N }
    ensures { result.items ≡ starts_of windows.now }
{
    let mut starts = ArrayVec::new();
    for window in windows {
        starts.push(window.lo);
    }
    starts
}
