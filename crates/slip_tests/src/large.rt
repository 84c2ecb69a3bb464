// Slips at the limits of length, of jobs and of links.
use crate::checks::check_fault;
use sheet::table::Sheet;
use slip::reader::{MAX_SLIP, read_slip};
use std::alloc::Global;
use std::test::Fail;

/// A text again and again.
fn repeated(heap: Global, text: &str, times: usize) -> Result<String, Fail> {
    let mut slip = String::new(heap);
    for _ in 0..times {
        slip.push_str(text)?;
    }
    Ok(slip)
}

/// Some of the links between eleven jobs, no two alike.
fn push_links(slip: &mut String, count: u32) -> Result<(), Fail> {
    for k in 0..count {
        let from = k / 10 % 11;
        let to = (from + 1 + k % 10) % 11;
        write!(slip, "L {from} {to} 0\n")?;
    }
    Ok(())
}

#[test]
fn long_slips(rt: HostRuntime) -> Result<(), Fail> {
    let bytes = repeated(rt.alloc(), "J", MAX_SLIP)?;
    check_fault(&rt, bytes.as_str(), 21, 1, 0)?;
    let lines = repeated(rt.alloc(), "\n", MAX_SLIP)?;
    check_fault(&rt, lines.as_str(), 22, 1, 0)?;
    let longer = repeated(rt.alloc(), "\n", MAX_SLIP + 1)?;
    check_fault(&rt, longer.as_str(), 20, 0, 0)
}

#[test]
fn full_sheet(rt: HostRuntime) -> Result<(), Fail> {
    let mut slip = repeated(rt.alloc(), "J 0 1 0 1\n", 48)?;
    push_links(&mut slip, 96)?;
    slip.push_str("E 48 96 480\n")?;
    let mut sheet = Sheet::new();
    read_slip(&mut sheet, slip.as_bytes())?;
    assert_eq!(rt; sheet.jobs().len(), 48);
    assert_eq!(rt; sheet.links().len(), 96);
    Ok(())
}

#[test]
fn overfull_sheets(rt: HostRuntime) -> Result<(), Fail> {
    let jobs = repeated(rt.alloc(), "J 0 1 0 1\n", 49)?;
    check_fault(&rt, jobs.as_str(), 25, 49, 2)?;
    let mut links = repeated(rt.alloc(), "J 0 1 0 1\n", 11)?;
    push_links(&mut links, 97)?;
    check_fault(&rt, links.as_str(), 25, 108, 10)
}
