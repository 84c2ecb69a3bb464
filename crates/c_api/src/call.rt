// The one function that C programs call, through the crate c_api_c.
ghost use Rattle.std.specs.Prelude.{◌≡◌, ℕ, ◌*◌, ◌/◌, ◌≤◌, ◌<◌, length};
ghost use Rattle.slip.specs.Faults.{fault_line, last_line};
ghost use Rattle.planner.specs.States.{state_of};
ghost use Rattle.house.specs.Piles.{house_cut};
ghost use Rattle.house.specs.Hall.{InTheHallsWords};
ghost use Rattle.report.specs.Planning.{plan_slip, told};
ghost use Rattle.search.specs.Looks.{outcome_of};
ghost use Rattle.search.specs.Outcomes.{outcome_number};
ghost use Rattle.c_api.specs.Answers.{fault_answer, unplanned_answer, answer, buffer_of_state, buffer_after, Tellable, Writable};

use crate::bytes::write_starts;
use house::pile::HousePile;
use house::planning::plan_within;
use report::reported::{Report, Unplanned};
use slip::fault::Fault;

/// Number, line and inside of a fault in one.
// No From: it asks that the line leaves room for the three, and From asks nothing.
fn fault_answer(fault: Fault) -> u32
    requires { fault_line fault ≤ last_line }
    ensures { result ≡ fault_answer fault }
{
    fault.number() + 100 * fault.line() as u32 + 1_000_000 * fault.inside()
}

/// Why a slip was not planned, in one number.
// No From, for the same reason.
fn unplanned_answer(unplanned: Unplanned) -> u32
    requires { Tellable unplanned }
    ensures { result ≡ unplanned_answer unplanned }
{
    match unplanned {
        Unplanned::Faulty(fault) => fault_answer(fault),
        Unplanned::Refused(refusal) => refusal.into(),
    }
}

/// The number of a report's outcome; where a timetable was found, its starts go into the buffer.
// A number and no Outcome: the C call answers one number for all.
fn report_answer(report: Report<HousePile>, buffer: &mut [u8]) -> u32
    requires { Writable (state_of report.search) buffer.old }
    ensures answer { result ≡ outcome_number (outcome_of (state_of report.search)) }
    ensures buffer { buffer.new ≡ buffer_of_state (state_of report.search) buffer.old }
{
    if let Some(starts) = report.timetable() {
        write_starts(starts, buffer);
    }
    report.outcome().into()
}

/// Plans a slip for a C program.
///
/// Answers the outcome (0 open, 1 found, 2 impossible); for a faulty slip its number + 100 × its line
/// + 1,000,000 × the refusal inside; else 11 for looks of 0 or above 1,000,000, or 14 for a buffer
/// below 2 bytes a job. On found the buffer has each start as two bytes, low byte first; its other
/// bytes, and on all else the whole buffer, are untouched.
pub fn riuvelde_plan(slip: &[u8], looks: u32, buffer: &mut [u8]) -> u32
    ensures answer { result ≡ answer (plan_slip house_cut slip.now looks (length buffer.old / 2)) }
    ensures buffer { buffer.new ≡ buffer_after (plan_slip house_cut slip.now looks (length buffer.old / 2)) buffer.old }
    ensures hall { InTheHallsWords slip.now looks (length buffer.old / 2) (plan_slip house_cut slip.now looks (length buffer.old / 2)) }
{
    match plan_within(slip, looks, buffer.len() / 2) {
        Ok(report) => report_answer(report, buffer),
        Err(unplanned) => unplanned_answer(unplanned),
    }
}
