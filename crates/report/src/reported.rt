// What comes of a slip: a report of its search, or why it was not planned.
ghost use Rattle.std.specs.Prelude.{◌≡◌, Some};
ghost use Rattle.report.specs.Texts.{unplanned_text};
ghost use Rattle.report.specs.declared.reported.Unplanned.TheVariants.{Faulty, Refused};

use planner::state::Search;
use sheet::refusal::Refusal;
use slip::fault::Fault;
use std::fmt;

/// Why a slip was not planned.
#[derive(Clone, Copy, PartialEq, Eq, Debug)]
pub enum Unplanned {
    /// The slip is faulty.
    Faulty(Fault),
    /// The looks granted are out of range, or there is no room for the starts.
    Refused(Refusal),
}

impl From<Fault> for Unplanned {
    ghost from_gives = { λ f u. u ≡ Faulty f };

    fn from(fault: Fault) -> Unplanned {
        Unplanned::Faulty(fault)
    }
}

impl From<Refusal> for Unplanned {
    ghost from_gives = { λ r u. u ≡ Refused r };

    fn from(refusal: Refusal) -> Unplanned {
        Unplanned::Refused(refusal)
    }
}

impl fmt::Display for Unplanned {
    ghost output = { λ u. Some (unplanned_text u) };

    fn fmt<W: fmt::Write>(&self, f: &mut fmt::Formatter<W>) -> fmt::Result {
        match *self {
            Unplanned::Faulty(fault) => write!(f, "{fault}"),
            Unplanned::Refused(refusal) => write!(f, "{refusal}"),
        }
    }
}

/// The search of a slip's sheet after its looks.
#[derive(Drop)]
pub struct Report<P> {
    pub(crate) search: Search<P>,
    pub(crate) looks: u32,
}
