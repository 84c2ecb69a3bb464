// From a draft to its search and back.
ghost use Rattle.std.specs.Prelude.{◌≡◌, []};
ghost use Rattle.search.specs.Looks.{opened};
ghost use Rattle.search.specs.Paths.{Blank};
ghost use Rattle.planner.specs.States.{state_of};

use crate::draft::Draft;
use crate::state::{Search, Standing};
use rule::narrowing::Rule;
use rule::standstill::Standstill;
use search::path::Path;

impl<P: Rule> Draft<P> {
    /// Turns the draft into a search that is open, with an empty path.
    pub fn close(self) -> Search<P>
        ensures state { state_of result ≡ opened [] }
        ensures blank { Blank result.path }
        ensures sheet { result.draft.sheet ≡ self.sheet }
        ensures pile { result.draft.pile.0 ≡ self.pile }
    {
        let Draft { sheet, pile } = self;
        Search {
            draft: Draft {
                sheet,
                pile: Standstill::of(pile),
            },
            standing: Standing::Open,
            path: Path::new(),
        }
    }
}

impl<P> Search<P> {
    /// Turns the search into a draft with the sheet as it was closed.
    pub fn reopen(self) -> Draft<P>
        ensures sheet { result.sheet ≡ self.draft.sheet }
        ensures pile { result.pile ≡ self.draft.pile.0 }
    {
        let Draft {
            sheet,
            pile: Standstill(rule),
        } = self.draft;
        Draft { sheet, pile: rule }
    }
}
