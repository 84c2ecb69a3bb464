// Why a slip is not taken, with the number and the line by which it is told.
ghost use Rattle.std.specs.Prelude.{◌≡◌, Some};
ghost use Rattle.slip.specs.Faults.{fault_number, fault_line, fault_inside, fault_text};

use sheet::refusal::Refusal;
use std::fmt;

/// The faults, with the line from 1 that has them.
#[derive(Clone, Copy, PartialEq, Eq, Debug)]
pub enum Fault {
    /// More bytes than a slip may have.
    TooLong,
    /// No trailer among the finished lines, or bytes after the last of them.
    Unfinished(usize),
    /// An empty line, a letter that begins no line, a job after a link, or a line after the trailer.
    BadLetter(usize),
    /// Fields missing, surplus or ill written.
    BadFields(usize),
    /// A trailer with figures that are not true.
    UntrueTrailer(usize),
    /// A job or link that the sheet refuses, and why.
    Refused(usize, Refusal),
}

impl Fault {
    /// The number that tells the fault.
    // No From and no discriminants: a fault is told by three numbers, and some faults hold a line.
    pub fn number(self) -> u32
        ensures { result ≡ fault_number self }
    {
        match self {
            Fault::TooLong => 20,
            Fault::Unfinished(_) => 21,
            Fault::BadLetter(_) => 22,
            Fault::BadFields(_) => 23,
            Fault::UntrueTrailer(_) => 24,
            Fault::Refused(_, _) => 25,
        }
    }

    /// The line that has the fault, or 0 for the whole slip.
    // A number and no Option: the format and the C call write 0 where the whole slip is at fault.
    pub fn line(self) -> usize
        ensures { result ≡ fault_line self }
    {
        match self {
            Fault::TooLong => 0,
            Fault::Unfinished(line)
            | Fault::BadLetter(line)
            | Fault::BadFields(line)
            | Fault::UntrueTrailer(line)
            | Fault::Refused(line, _) => line,
        }
    }

    /// The number of the sheet's refusal, or 0.
    // A number and no Option: the format and the C call write 0 where the sheet refused nothing.
    pub fn inside(self) -> u32
        ensures { result ≡ fault_inside self }
    {
        match self {
            Fault::Refused(_, refusal) => u32::from(refusal),
            _ => 0,
        }
    }
}

impl fmt::Display for Fault {
    ghost output = { λ f. Some (fault_text f) };

    fn fmt<W: fmt::Write>(&self, f: &mut fmt::Formatter<W>) -> fmt::Result {
        let number = self.number();
        let line = self.line();
        let inside = self.inside();
        write!(f, "fault {number} {line} {inside}")
    }
}
