// What every test checks of one slip.
use sheet::records::{Job, Link};
use sheet::table::Sheet;
use slip::reader::read_slip;
use std::process::Abort;
use std::test::Fail;

/// A sheet that was in use before: two jobs and a link.
fn used_sheet() -> Result<Sheet, Fail> {
    let mut sheet = Sheet::new();
    sheet.enter(1, 2, 3, 40)?;
    sheet.enter(4, 5, 6, 70)?;
    sheet.link(1, 0, 8)?;
    Ok(sheet)
}

/// The slip has the fault, and leaves the sheet empty.
pub(crate) fn check_fault(
    rt: &impl Abort,
    slip: &str,
    number: u32,
    line: usize,
    inside: u32,
) -> Result<(), Fail> {
    let mut sheet = used_sheet()?;
    let Err(fault) = read_slip(&mut sheet, slip.as_bytes()) else {
        return Err(Fail::new(slip));
    };
    assert_eq!(rt; fault.number(), number, "number: {slip}");
    assert_eq!(rt; fault.line(), line, "line: {slip}");
    assert_eq!(rt; fault.inside(), inside, "inside: {slip}");
    assert_eq!(rt; sheet.jobs().len(), 0, "jobs left: {slip}");
    assert_eq!(rt; sheet.links().len(), 0, "links left: {slip}");
    Ok(())
}

/// The slip is taken, and the sheet holds just these jobs and links.
pub(crate) fn check_taken(
    rt: &impl Abort,
    slip: &[u8],
    jobs: &[Job],
    links: &[Link],
) -> Result<(), Fail> {
    let mut sheet = used_sheet()?;
    read_slip(&mut sheet, slip)?;
    assert_eq!(rt; sheet.jobs(), jobs, "jobs");
    assert_eq!(rt; sheet.links(), links, "links");
    Ok(())
}
