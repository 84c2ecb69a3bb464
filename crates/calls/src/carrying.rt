// Carries out calls, and promises of any list of them what the searches owe.
ghost use Rattle.std.specs.Prelude.{◌≡◌};
ghost use Rattle.sheet.specs.Sheets.{entries};
ghost use Rattle.planner.specs.States.{entries_of, state_of};
ghost use Rattle.calls.specs.Stages.{fresh, drafting, searching, answer_of, stage_after};
ghost use Rattle.calls.specs.Planners.{stage_of, pile_of};
ghost use Rattle.calls.specs.Carrying.{CarriesOn};

use crate::call::{Answer, Call};
use crate::planning::Planner;
use planner::draft::Draft;
use planner::state::Search;
use rule::narrowing::Rule;

/// A call on a draft.
fn on_draft<P: Rule>(mut draft: Draft<P>, call: Call) -> (Planner<P>, Answer)
    ensures answer { result.1 ≡ answer_of (P.Rule.cut draft.pile) (drafting (entries draft.sheet)) call }
    ensures stage { stage_of result.0 ≡ stage_after (P.Rule.cut draft.pile) (drafting (entries draft.sheet)) call }
    ensures pile { pile_of result.0 ≡ draft.pile }
{
    let answer = match call {
        Call::Enter {
            station,
            duration,
            release,
            due,
        } => draft
            .enter(station, duration, release, due)
            .map_or_else(Answer::Refused, Answer::Number),
        Call::Link { from, to, wait } => draft
            .link(from, to, wait)
            .map_or_else(Answer::Refused, |()| Answer::Number(0)),
        Call::Move { job, release, due } => draft
            .move_job(job, release, due)
            .map_or_else(Answer::Refused, |()| Answer::Number(0)),
        Call::Close => return (Planner::Searching(draft.close()), Answer::Closed),
        Call::Advance { .. } | Call::Start { .. } | Call::Reopen => Answer::OutOfTurn,
    };
    (Planner::Drafting(draft), answer)
}

/// A call on a search.
fn on_search<P: Rule>(mut search: Search<P>, call: Call) -> (Planner<P>, Answer)
    ensures answer { result.1 ≡ answer_of (P.Rule.cut search.draft.pile.0) (searching (entries_of search) (state_of search)) call }
    ensures stage { stage_of result.0 ≡ stage_after (P.Rule.cut search.draft.pile.0) (searching (entries_of search) (state_of search)) call }
    ensures pile { pile_of result.0 ≡ search.draft.pile.0 }
{
    let answer = match call {
        Call::Advance { looks } => search
            .advance(looks)
            .map_or_else(Answer::Refused, |(_, made)| {
                Answer::Advanced(search.outcome(), made)
            }),
        Call::Start { job } => search
            .start(job)
            .map_or_else(Answer::Refused, Answer::Number),
        Call::Reopen => return (Planner::Drafting(search.reopen()), Answer::Reopened),
        Call::Enter { .. } | Call::Link { .. } | Call::Move { .. } | Call::Close => {
            Answer::OutOfTurn
        }
    };
    (Planner::Searching(search), answer)
}

impl<P: Rule> Planner<P> {
    /// A fresh draft.
    pub fn new(pile: P) -> Planner<P>
        ensures stage { stage_of result ≡ fresh }
        ensures pile { pile_of result ≡ pile }
    {
        Planner::Drafting(Draft::new(pile))
    }

    /// One call on whichever of the two there is.
    fn step(self, call: Call) -> (Planner<P>, Answer)
        ensures answer { result.1 ≡ answer_of (P.Rule.cut (pile_of self)) (stage_of self) call }
        ensures stage { stage_of result.0 ≡ stage_after (P.Rule.cut (pile_of self)) (stage_of self) call }
        ensures pile { pile_of result.0 ≡ pile_of self }
    {
        match self {
            Planner::Drafting(draft) => on_draft(draft, call),
            Planner::Searching(search) => on_search(search, call),
        }
    }

    /// Carries out one call and answers it. A call that is refused or out of turn changes nothing.
    ///
    /// Whatever list of calls led here from a fresh draft, the promise is kept of all of it: a no is
    /// true, a timetable found fits and starts answer from it, enough looks settle the search, and no
    /// look is made or reported beyond those granted.
    pub fn carry_out(self, call: Call) -> (Planner<P>, Answer)
        ensures answer { result.1 ≡ answer_of (P.Rule.cut (pile_of self)) (stage_of self) call }
        ensures stage { stage_of result.0 ≡ stage_after (P.Rule.cut (pile_of self)) (stage_of self) call }
        ensures pile { pile_of result.0 ≡ pile_of self }
        ensures promise { CarriesOn (P.Rule.admits (pile_of self)) (P.Rule.cut (pile_of self)) (stage_of self) call result.1 (stage_of result.0) }
    {
        self.step(call)
    }
}
