// A search as it stands between two calls, and what it always keeps to.
ghost use Rattle.std.specs.Prelude.{◌≡◌, ℕ, length};
ghost use Rattle.arrayvec.specs.ArrayVec.{ArrayVec as Starts};
ghost use Rattle.sheet.specs.Sheets.{entries};
ghost use Rattle.search.specs.Deciding.{Grown};
ghost use Rattle.search.specs.Entered.{entered_windows};
ghost use Rattle.search.specs.Paths.{decisions};
ghost use Rattle.planner.specs.declared.state.Standing.TheVariants.{Found, Impossible};

use crate::draft::Draft;
use arrayvec::ArrayVec;
use rule::standstill::Standstill;
use search::path::Path;
use sheet::limits::MAX_JOBS;

/// Where a search stands: its outcome, with the starts of the timetable where one was found.
#[derive(Drop)]
pub(crate) enum Standing {
    Open,
    Found(ArrayVec<u32, MAX_JOBS>),
    Impossible,
}

/// The search of a draft that was closed, with its pile brought to a standstill in each look.
#[derive(Drop)]
pub struct Search<P> {
    pub(crate) draft: Draft<Standstill<P>>,
    pub(crate) standing: Standing,
    pub(crate) path: Path,
    ghost grown: { Grown (entered_windows (entries draft.sheet)) (decisions path) },
    ghost one_each: { (t : Starts ℕ) → standing ≡ Found t → length t.items ≡ length (entries draft.sheet).jobs },
    ghost no_path: { (standing ≡ Impossible → length (decisions path) ≡ 0) },
}
