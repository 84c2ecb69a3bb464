// One look of a search.
ghost use Rattle.std.specs.Prelude.{◌≡◌, true, length};
ghost use Rattle.rule.specs.Windows.{formed};
ghost use Rattle.rule.specs.Cuts.{live};
ghost use Rattle.planner.specs.declared.state.Standing.TheVariants.{Open};
ghost use Rattle.search.specs.Choosing.{narrowest as narrowest_of};
ghost use Rattle.search.specs.Looks.{backtracked, branched};
ghost use Rattle.planner.specs.States.{entries_of, path_in, state_of, windows_in, narrowed_in, look_in};

use crate::state::{Search, Standing};
use arrayvec::ArrayVec;
use rule::narrowing::Rule;
use rule::verdict::Dead;
use search::choosing::narrowest;
use search::decision::Decision;
use search::entered::{entered_windows, first_starts};
use sheet::limits::MAX_JOBS;
use sheet::records::Window;

// Its steps say of the draft that it stays, and ask for an open search, in clauses: a type for the rest of an open
// search would need the facts that tie its path to the sheet in a clause of each instead.
impl<P: Rule> Search<P> {
    /// The entered windows, cut down to the parts chosen on the path.
    fn windows(&self) -> ArrayVec<Window, MAX_JOBS>
        ensures windows { result.items ≡ windows_in self.now }
        ensures formed { formed (length (entries_of self.now).jobs) result.items ≡ true }
    {
        let mut windows = entered_windows(&self.draft.sheet);
        self.path.cut_down(windows.as_mut_slice());
        windows
    }

    /// After a dead end: goes back to the last decision on its first part, and takes its second.
    fn backtrack(&mut self)
        requires { self.old.standing ≡ Open }
        ensures state { state_of self.new ≡ backtracked (path_in self.old) }
        ensures draft { self.new.draft ≡ self.old.draft }
    {
        if !self.path.backtrack() {
            self.standing = Standing::Impossible;
        }
    }

    /// With the narrowed windows: splits the narrowest, or finds a timetable where all are single starts.
    fn branch(&mut self, windows: &[Window])
        requires open { self.old.standing ≡ Open }
        requires narrowed { narrowed_in P.Rule.cut self.old ≡ live windows.now }
        ensures state { state_of self.new ≡ branched (narrowest_of windows.now) windows.now (path_in self.old) }
        ensures draft { self.new.draft ≡ self.old.draft }
    {
        match narrowest(windows) {
            Some(job) => self.path.push(Decision::on(job, windows[job])),
            None => self.standing = Standing::Found(first_starts(windows)),
        }
    }

    /// One look at a search that is open.
    pub(crate) fn look(&mut self)
        requires { self.old.standing ≡ Open }
        ensures state { state_of self.new ≡ look_in P.Rule.cut self.old (path_in self.old) }
        ensures draft { self.new.draft ≡ self.old.draft }
    {
        let mut windows = self.windows();
        let draft = &self.draft;
        let verdict = draft.pile.propagate(&draft.sheet, windows.as_mut_slice());
        match verdict {
            Err(Dead) => self.backtrack(),
            Ok(()) => self.branch(windows.as_slice()),
        }
    }
}
