// Why a call is refused, and the number by which it is told.
ghost use Rattle.std.specs.Prelude.{◌≡◌, Some};
ghost use Rattle.sheet.specs.Refusals.{refusal_number, refusal_text};

use std::fmt;

/// The causes, in the order in which they speak where several apply.
#[derive(Clone, Copy, PartialEq, Eq, Debug)]
pub enum Refusal {
    /// A job that is not on the sheet.
    UnknownJob = 1,
    /// All places for jobs are taken.
    SheetFull = 2,
    /// A station above the last.
    UnknownStation = 3,
    /// A duration of 0, or above the longest.
    DurationOutOfRange = 4,
    /// A release or due time after the last minute.
    TimeOutOfRange = 5,
    /// A release plus duration above the due time.
    WindowTooShort = 6,
    /// A link from a job to itself.
    SelfLink = 7,
    /// A wait above the longest.
    WaitTooLong = 8,
    /// A link between two jobs that are linked so already.
    DuplicateLink = 9,
    /// All places for links are taken.
    LinksFull = 10,
    /// A grant of no looks, or of more than a call may have.
    LooksOutOfRange = 11,
    /// A start asked of a search that has found no timetable.
    NotFound = 12,
    /// Windows that no sheet's jobs can have.
    MalformedWindows = 13,
    /// A buffer with less than two bytes a job.
    BufferTooShort = 14,
}

impl From<Refusal> for u32 {
    ghost from_gives = { λ refusal number. number ≡ refusal_number refusal };

    /// The number that tells the cause.
    fn from(refusal: Refusal) -> u32 {
        refusal as u32
    }
}

impl fmt::Display for Refusal {
    ghost output = { λ refusal. Some (refusal_text refusal) };

    fn fmt<W: fmt::Write>(&self, f: &mut fmt::Formatter<W>) -> fmt::Result {
        let number = u32::from(*self);
        write!(f, "refused {number}")
    }
}
