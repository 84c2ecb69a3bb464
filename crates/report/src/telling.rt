// What a report says.
ghost use Rattle.std.specs.Prelude.{◌≡◌, Some, None, MatchOption};
ghost use Rattle.sheet.specs.Sheets.{entries};
ghost use Rattle.search.specs.Looks.{outcome_of};
ghost use Rattle.planner.specs.States.{entries_of, state_of};
ghost use Rattle.planner.specs.Calls.{timetable_of};

use crate::reported::Report;
use search::outcome::Outcome;
use sheet::records::Job;

impl<P> Report<P> {
    /// How many looks were made.
    pub fn looks(&self) -> u32
        ensures { result ≡ self.now.looks }
    {
        self.looks
    }

    /// What came of them.
    pub fn outcome(&self) -> Outcome
        ensures { result ≡ outcome_of (state_of self.now.search) }
    {
        self.search.outcome()
    }

    /// The slip's jobs, by number.
    pub fn jobs(&self) -> &[Job]
        ensures { result.now ≡ (entries_of self.now.search).jobs }
    {
        self.search.sheet().jobs()
    }

    /// Each job's start, by number, where a timetable was found.
    pub fn timetable(&self) -> Option<&[u32]>
        ensures { MatchOption result (timetable_of (state_of self.now.search) ≡ None) (λ t. timetable_of (state_of self.now.search) ≡ Some t.now) }
    {
        self.search.timetable()
    }
}
