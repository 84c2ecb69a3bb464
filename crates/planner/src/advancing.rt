// Looks in a row, and the starts that they found.
ghost use Rattle.std.specs.Prelude.{◌≡◌, length, Some, None, MatchOption};
ghost use Rattle.sheet.specs.Entering.{taken};
ghost use Rattle.search.specs.Looks.{outcome_of, path_of, after_looks, looks_made};
ghost use Rattle.search.specs.Promise.{Composes};
ghost use Rattle.planner.specs.States.{entries_of, path_in, state_of, admits_in, cut_in, look_in};
ghost use Rattle.planner.specs.Calls.{advance_answer, start_answer, timetable_of, Untouched};
ghost use Rattle.planner.specs.Keeping.{Kept};

use crate::state::{Search, Standing};
use rule::narrowing::Rule;
use search::outcome::Outcome;
use sheet::refusal::Refusal;
use sheet::table::Sheet;

/// How many looks an advance may be granted; at least 1.
pub const MAX_LOOKS: u32 = 1_000_000;

// Both say of the draft that it stays, as the steps of a look do: see there.
impl<P: Rule> Search<P> {
    /// Looks until the search is settled or so many are made: the outcome, and how many were made.
    fn make_looks(&mut self, looks: u32) -> (Outcome, u32)
        ensures outcome { result.0 ≡ outcome_of (state_of self.new) }
        ensures made { result.1 ≡ looks_made (look_in P.Rule.cut self.old) looks (state_of self.old) }
        ensures state { state_of self.new ≡ after_looks (look_in P.Rule.cut self.old) looks (state_of self.old) }
        ensures draft { self.new.draft ≡ self.old.draft }
    {
        let mut made: u32 = 0;
        let outcome = loop {
            match self.outcome() {
                Outcome::Open => {}
                settled => break settled,
            }
            if made == looks {
                break Outcome::Open;
            }
            self.look();
            made += 1;
        };
        (outcome, made)
    }

    /// Grants looks to the search. Answers the number of its outcome and how many looks were made:
    /// all of them, or fewer where it is settled.
    ///
    /// Whatever advances led here since the close: none fits where the outcome is impossible, the
    /// timetable found fits, and twice the number of timetables within the entered windows, less one,
    /// is enough looks and never passed.
    pub fn advance(&mut self, looks: u32) -> Result<(u32, u32), Refusal>
        ensures answer { result ≡ advance_answer (look_in P.Rule.cut self.old) looks (state_of self.old) }
        ensures state { state_of self.new ≡ taken result (state_of self.old) (after_looks (look_in P.Rule.cut self.old) looks (state_of self.old)) }
        ensures path { path_in self.new ≡ path_of (state_of self.new) }
        ensures draft { self.new.draft ≡ self.old.draft }
        ensures refused { Untouched result self.old self.new }
        ensures promise { Kept (admits_in P.Rule.admits self.old) (cut_in P.Rule.cut self.old) (entries_of self.old) (state_of self.old) looks result (state_of self.new) }
        ensures instalments { Composes (look_in P.Rule.cut self.old) }
    {
        if looks == 0 || looks > MAX_LOOKS {
            return Err(Refusal::LooksOutOfRange);
        }
        let (outcome, made) = self.make_looks(looks);
        Ok((outcome.into(), made))
    }
}

impl<P> Search<P> {
    /// The start of a job in the timetable that was found.
    pub fn start(&self, job: u32) -> Result<u32, Refusal>
        ensures { result ≡ start_answer (length (entries_of self.now).jobs) (state_of self.now) job }
    {
        let number = job as usize;
        if number >= self.draft.sheet.jobs().len() {
            return Err(Refusal::UnknownJob);
        }
        let starts = self.timetable().ok_or(Refusal::NotFound)?;
        Ok(starts[number])
    }

    /// What has come of the search so far.
    pub fn outcome(&self) -> Outcome
        ensures { result ≡ outcome_of (state_of self.now) }
    {
        match &self.standing {
            Standing::Open => Outcome::Open,
            Standing::Found(_) => Outcome::Found,
            Standing::Impossible => Outcome::Impossible,
        }
    }

    /// The timetable that was found: each job's start, by number.
    pub fn timetable(&self) -> Option<&[u32]>
        ensures { MatchOption result (timetable_of (state_of self.now) ≡ None) (λ t. timetable_of (state_of self.now) ≡ Some t.now) }
    {
        match &self.standing {
            Standing::Found(starts) => Some(starts.as_slice()),
            Standing::Open | Standing::Impossible => None,
        }
    }

    /// The sheet as it was closed.
    pub fn sheet(&self) -> &Sheet
        ensures { result.now ≡ self.now.draft.sheet }
    {
        &self.draft.sheet
    }
}
