// A decision: a job's window split at a middle minute, and the part of it that is looked at.
ghost use Rattle.std.specs.Prelude.{◌≡◌, ◌<◌, ◌≤◌};
ghost use Rattle.search.specs.Deciding.{decision_on, chosen, to_second};

use sheet::records::Window;

/// The two parts of a window that was split.
#[derive(Clone, Copy, Default, PartialEq, Eq, Debug)]
pub enum Part {
    /// To the middle minute.
    #[default]
    First,
    /// From the minute after it.
    Second,
}

/// One job's window, split at its middle minute.
#[derive(Clone, Copy, Default, PartialEq, Eq, Debug)]
pub struct Decision {
    pub job: usize,
    pub window: Window,
    pub middle: u32,
    /// The part that is looked at.
    pub part: Part,
}

impl Decision {
    /// The decision on a job's window, on its first part.
    pub fn on(job: usize, window: Window) -> Decision
        requires { window.lo ≤ window.hi }
        ensures { result ≡ decision_on job window }
    {
        Decision {
            job,
            window,
            middle: window.lo + (window.hi - window.lo) / 2,
            part: Part::First,
        }
    }

    /// The starts that the decision leaves to its job.
    pub fn chosen(self) -> Window
        requires { self.middle < self.window.hi }
        ensures { result ≡ chosen self }
    {
        match self.part {
            Part::First => Window {
                lo: self.window.lo,
                hi: self.middle,
            },
            Part::Second => Window {
                lo: self.middle + 1,
                hi: self.window.hi,
            },
        }
    }

    /// The same decision on its second part.
    pub fn to_second(self) -> Decision
        ensures { result ≡ to_second self }
    {
        Decision {
            part: Part::Second,
            ..self
        }
    }
}
