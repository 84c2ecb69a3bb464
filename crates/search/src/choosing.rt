// The choice of the job whose window is split.
ghost use Rattle.std.specs.Prelude.{◌≡◌};
ghost use Rattle.search.specs.Choosing.{narrowest as narrowest_of, Chooses};

use sheet::records::Window;

/// The job with the narrowest window above a single start, the lowest number among equals.
pub fn narrowest(windows: &[Window]) -> Option<usize>
    ensures choice { result ≡ narrowest_of windows.now }
    ensures chooses { Chooses windows.now result }
{
    windows
        .iter()
        .enumerate()
        .filter(|(_, window)| window.lo < window.hi)
        .min_by_key(|(_, window)| window.hi - window.lo)
        .map(|(job, _)| job)
}
