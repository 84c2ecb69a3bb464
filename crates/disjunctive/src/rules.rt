// The rules that a station takes one job at a time, each by a kernel.
ghost use Rattle.disjunctive.specs.Disjoint.{Disjoint};
ghost use Rattle.disjunctive.specs.StationCuts.{station_cut};
ghost use Rattle.disjunctive.specs.Lawfulness.{station_lawful};

use crate::stations::propagate;
use rule::narrowing::Rule;
use rule::verdict::Verdict;
use sheet::records::Window;
use sheet::table::Sheet;
use station::edges::EdgeFinding;
use station::kernel::Kernel;
use station::not_first::NotFirstNotLast;
use station::pairs::PairOrdering;

/// Admits a timetable if of any two jobs at one station one ends no later than the other starts.
///
/// It narrows by its kernel, and is dead if the kernel finds a station overloaded.
#[derive(Clone, Copy)]
pub struct Disjunctive<K>(pub K);

impl<K: Kernel> Rule for Disjunctive<K> {
    ghost admits = { λ _ e t. Disjoint e.jobs t };

    ghost cut = { λ _ e ws. station_cut K.overloaded K.earliest K.limit e.jobs ws };

    ghost lawful = { λ r e s. station_lawful _ _ _ K.lawful e s };

    fn propagate(&self, sheet: &Sheet, windows: &mut [Window]) -> Verdict {
        propagate::<K>(sheet, windows)
    }
}

/// Holds any two jobs of a station against each other.
pub type Pairs = Disjunctive<PairOrdering>;

/// The rule Pairs.
pub const PAIRS: Pairs = Disjunctive(PairOrdering);

/// Holds each job against all sets of other jobs of its station, and is dead if a set does not fit between its earliest start and its latest end.
pub type Edges = Disjunctive<EdgeFinding>;

/// The rule Edges.
pub const EDGES: Edges = Disjunctive(EdgeFinding);

/// Holds each job against all sets of other jobs of its station: it cannot come before, or after, all of a set.
pub type NotFirst = Disjunctive<NotFirstNotLast>;

/// The rule Not-first.
pub const NOT_FIRST: NotFirst = Disjunctive(NotFirstNotLast);
