// planslip: plans the slip on standard input with the house pile, and prints the outcome or the fault.
#![tactic(auto)]

use arrayvec::ArrayVec;
use house::pile::HousePile;
use house::planning::plan;
use report::reported::Report;
use slip::reader::MAX_SLIP;
use std::io;
use std::io::Read;

/// How many looks the search of a slip is granted.
const LOOKS: u32 = 100_000;

/// One byte more than a slip may have: enough to know that it is too long.
const ENOUGH: usize = MAX_SLIP + 1;

/// A line for each job: number, station, start, end.
fn print_timetable(rt: &HostRuntime, report: &Report<HousePile>) -> io::Result<()> {
    let Some(starts) = report.timetable() else {
        return Ok(());
    };
    for ((number, job), start) in report.jobs().iter().enumerate().zip(starts) {
        let station = job.station;
        let end = start.saturating_add(job.duration);
        println!(rt; "{number} {station} {start} {end}")?;
    }
    Ok(())
}

/// The outcome with the looks made, and after found the timetable.
fn print_report(rt: &HostRuntime, report: Report<HousePile>) -> io::Result<()> {
    let looks = report.looks();
    let outcome = report.outcome();
    println!(rt; "{outcome} {looks}")?;
    print_timetable(rt, &report)
}

fn main(rt: HostRuntime) -> io::Result<()> {
    let mut slip: ArrayVec<u8, ENOUGH> = ArrayVec::new();
    io::copy(&mut rt.stdin().take(ENOUGH as u64), &mut slip)?;
    match plan(slip.as_slice(), LOOKS) {
        Ok(report) => print_report(&rt, report),
        Err(unplanned) => println!(rt; "{unplanned}"),
    }
}
