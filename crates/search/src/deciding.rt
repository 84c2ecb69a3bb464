// How a path grows, goes back after a dead end, and cuts windows down.
ghost use Rattle.std.specs.Prelude.{◌≡◌, ◌<◌, [], ◌∷◌, length};
ghost use Rattle.search.specs.Deciding.{cut_down, Grown};
ghost use Rattle.search.specs.Looks.{backtracked, is_open, path_of};
ghost use Rattle.search.specs.Paths.{decisions, most_decisions, Blank};

use crate::decision::{Decision, Part};
use crate::path::{MAX_DECISIONS, Path};
use sheet::records::Window;

impl Path {
    /// A path with no decision, every place blank.
    pub fn new() -> Path
        ensures decisions { decisions result ≡ [] }
        ensures blank { Blank result }
    {
        Path {
            places: [Decision::default(); MAX_DECISIONS],
            depth: 0,
        }
    }

    /// One decision more.
    pub fn push(&mut self, decision: Decision)
        requires room { length (decisions self.old) < most_decisions }
        ensures { decisions self.new ≡ (decision ∷ decisions self.old) }
    {
        self.places[self.depth] = decision;
        self.depth += 1;
    }

    /// After a dead end: drops the last decisions that are on their second part, and takes the next to
    /// its second part. Whether there is such a one.
    // A bool: nothing comes with the yes, and the no is no failure.
    pub fn backtrack(&mut self) -> bool
        ensures answer { result ≡ is_open (backtracked (decisions self.old)) }
        ensures after { decisions self.new ≡ path_of (backtracked (decisions self.old)) }
    {
        let on_first = self.places[..self.depth]
            .iter()
            .rposition(|decision| decision.part == Part::First);
        match on_first {
            Some(last) => {
                self.places[last] = self.places[last].to_second();
                self.depth = last + 1;
                true
            }
            None => {
                self.depth = 0;
                false
            }
        }
    }

    /// Cuts windows down to the parts chosen on the path.
    pub fn cut_down(&self, windows: &mut [Window])
        requires { Grown windows.old (decisions self.now) }
        ensures { windows.new ≡ cut_down windows.old (decisions self.now) }
    {
        for decision in &self.places[..self.depth] {
            windows[decision.job] = decision.chosen();
        }
    }
}
