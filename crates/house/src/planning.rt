// From a slip's bytes and granted looks to a report, with the house pile.
ghost use Rattle.std.specs.Prelude.{◌≡◌};
ghost use Rattle.sheet.specs.Limits.{most_jobs};
ghost use Rattle.report.specs.Planning.{told, plan_slip};
ghost use Rattle.house.specs.Piles.{house_cut};
ghost use Rattle.house.specs.Hall.{InTheHallsWords};

use crate::pile::{HOUSE_PILE, HousePile};
use report::planning::plan_with;
use report::reported::{Report, Unplanned};
use sheet::limits::MAX_JOBS;

/// Plans a slip for a caller who has room for so many starts. The slip is tested first, then the looks,
/// then the room.
pub fn plan_within(bytes: &[u8], looks: u32, room: usize) -> Result<Report<HousePile>, Unplanned>
    ensures told { told result ≡ plan_slip house_cut bytes.now looks room }
    ensures hall { InTheHallsWords bytes.now looks room (told result) }
{
    plan_with(HOUSE_PILE, bytes, looks, room)
}

/// Plans a slip.
///
/// Found: every start lies in its entered window, no two jobs meet at one station, and every link's
/// wait is kept. Impossible: there are no such starts at all. Open: all granted looks were made.
pub fn plan(bytes: &[u8], looks: u32) -> Result<Report<HousePile>, Unplanned>
    ensures told { told result ≡ plan_slip house_cut bytes.now looks most_jobs }
    ensures hall { InTheHallsWords bytes.now looks most_jobs (told result) }
{
    plan_within(bytes, looks, MAX_JOBS)
}
