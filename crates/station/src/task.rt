// A task of a station.
ghost use Rattle.std.specs.Prelude.{◌≡◌};

use crate::limits::HORIZON;

/// A job at a station, with the starts that are left to it.
#[derive(Clone, Copy, Default)]
pub struct Task {
    /// The earliest start.
    pub lo: u32,
    /// How long the task holds the station.
    pub span: u32,
    /// The latest completion time: the last start plus the span.
    pub end: u32,
    /// The job's number.
    pub job: usize,
}

impl Task {
    ghost use Rattle.station.specs.Tasks.{Fit};
    ghost use Rattle.station.specs.Mirror.{mirror};

    /// The same task as time runs back from the horizon.
    pub fn mirrored(self) -> Task
        requires { Fit self }
        ensures { result ≡ mirror self }
    {
        Task {
            lo: HORIZON - self.end,
            end: HORIZON - self.lo,
            ..self
        }
    }
}
