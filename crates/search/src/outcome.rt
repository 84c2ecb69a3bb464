// What has come of a search so far.
ghost use Rattle.std.specs.Prelude.{◌≡◌, Some};
ghost use Rattle.search.specs.Outcomes.{outcome_number, outcome_word};

use std::fmt;

/// Whether a search is settled, and how.
#[derive(Clone, Copy, PartialEq, Eq, Debug)]
pub enum Outcome {
    /// Not settled yet.
    Open = 0,
    /// A timetable was found.
    Found = 1,
    /// There is no timetable.
    Impossible = 2,
}

/// The number that tells the outcome.
impl From<Outcome> for u32 {
    ghost from_gives = { λ o n. n ≡ outcome_number o };

    fn from(outcome: Outcome) -> u32 {
        outcome as u32
    }
}

/// The word that tells the outcome.
impl fmt::Display for Outcome {
    ghost output = { λ o. Some (outcome_word o) };

    fn fmt<W: fmt::Write>(&self, f: &mut fmt::Formatter<W>) -> fmt::Result {
        match *self {
            Outcome::Open => write!(f, "open"),
            Outcome::Found => write!(f, "found"),
            Outcome::Impossible => write!(f, "impossible"),
        }
    }
}
