// rulebench RULE JOBS CALLS: calls a station rule so many times on so many jobs of one station, to be counted from outside.
#![tactic(auto)]

use anyhow::{Context, anyhow};
use disjunctive::rules::{EDGES, NOT_FIRST, PAIRS};
use rule::narrowing::Rule;
use search::entered::entered_windows;
use sheet::table::Sheet;
use std::env;

/// Enters so many jobs at one station, with durations and windows in no order.
fn fill(sheet: &mut Sheet, jobs: u32) {
    for k in 0..jobs {
        let mixed = k.wrapping_mul(37) % 48;
        let release = mixed * 11;
        let due = 9_000 + (k.wrapping_mul(29) % 48) * 53;
        let _ = sheet.enter(0, 20 + mixed, release, due);
    }
}

/// Calls the rule so many times on the entered windows; how often it was alive.
fn call<R: Rule>(rule: &R, sheet: &Sheet, calls: u32) -> u32 {
    let mut alive: u32 = 0;
    for _ in 0..calls {
        let mut windows = entered_windows(sheet);
        if let Ok(Ok(())) = rule.narrow(sheet, windows.as_mut_slice()) {
            alive = alive.saturating_add(1);
        }
    }
    alive
}

fn main(rt: HostRuntime) -> anyhow::Result<()> {
    let mut words = env::args(&rt)?;
    let _program = words.next();
    let rule = words.next().context("no rule")?;
    let jobs = words.next().context("no number of jobs")?;
    let calls = words.next().context("no number of calls")?;
    let mut sheet = Sheet::new();
    fill(&mut sheet, jobs.parse::<u32>()?);
    let times = calls.parse::<u32>()?;
    // A match and no `&dyn Rule`: the way to the rule would be counted along.
    let alive = match rule.as_str() {
        "pairs" => call(&PAIRS, &sheet, times),
        "edges" => call(&EDGES, &sheet, times),
        "not-first" => call(&NOT_FIRST, &sheet, times),
        _ => return Err(anyhow!("the rule is pairs, edges or not-first")),
    };
    println!(rt; "{alive}")?;
    Ok(())
}
