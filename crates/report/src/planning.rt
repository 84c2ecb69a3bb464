// From a slip's bytes and granted looks to a report.
ghost use Rattle.std.specs.Prelude.{◌≡◌};
ghost use Rattle.sheet.specs.Sheets.{entries};
ghost use Rattle.report.specs.Planning.{told, plan_sheet, plan_slip, OwesSheet, Owes};

use crate::reported::{Report, Unplanned};
use planner::advancing::MAX_LOOKS;
use planner::draft::Draft;
use rule::narrowing::Rule;
use sheet::refusal::Refusal;

/// Plans the sheet of a draft, where there is room for so many starts.
// The looks are tested here as in advance, which is called when the room is known: the looks speak first.
fn plan_draft<P: Rule + Drop>(
    draft: Draft<P>,
    looks: u32,
    room: usize,
) -> Result<Report<P>, Unplanned>
    ensures told { told result ≡ plan_sheet (P.Rule.cut draft.pile) looks room (entries draft.sheet) }
    ensures owes { OwesSheet (P.Rule.admits draft.pile) (entries draft.sheet) looks room (told result) }
{
    if looks == 0 || looks > MAX_LOOKS {
        return Err(Refusal::LooksOutOfRange.into());
    }
    if draft.sheet().jobs().len() > room {
        return Err(Refusal::BufferTooShort.into());
    }
    let mut search = draft.close();
    let (_, looks) = search.advance(looks)?;
    Ok(Report { search, looks })
}

/// Plans a slip with any pile of rules, where there is room for so many starts.
// Three parameters and no struct: they are those of the call for C, and each caller hands on just these.
pub fn plan_with<P: Rule + Drop>(
    pile: P,
    bytes: &[u8],
    looks: u32,
    room: usize,
) -> Result<Report<P>, Unplanned>
    ensures told { told result ≡ plan_slip (P.Rule.cut pile) bytes.now looks room }
    ensures owes { Owes (P.Rule.admits pile) bytes.now looks room (told result) }
{
    let mut draft = Draft::new(pile);
    draft.read(bytes)?;
    plan_draft(draft, looks, room)
}
