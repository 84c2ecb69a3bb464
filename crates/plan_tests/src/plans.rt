// Planning a slip: the report, or why there is none.
use crate::example::EXAMPLE;
use house::planning::{plan, plan_within};
use report::reported::Unplanned;
use std::test::Fail;

/// Slips with looks and room for starts; the number, line and inside of what is wrong, with zeros for a refusal.
static UNPLANNED: [(&str, u32, usize, u32, usize, u32); 8] = [
    ("J 0 5 0 12\nE 0 0 11\n", 9, 48, 24, 2, 0),
    ("J 0 5 0 12\nJ 8 4 0 9\n", 9, 48, 25, 2, 3),
    ("J 0 5 0 12\n", 0, 0, 21, 2, 0),
    ("E 0 0 0\n", 0, 0, 11, 0, 0),
    ("E 0 0 0\n", 1_000_001, 0, 11, 0, 0),
    ("J 0 5 0 12\nE 1 0 11\n", 0, 0, 11, 0, 0),
    ("J 0 5 0 12\nE 1 0 11\n", 1, 0, 14, 0, 0),
    (EXAMPLE, 1_000_000, 1, 14, 0, 0),
];

/// Number, line and inside.
fn figures(unplanned: Unplanned) -> (u32, usize, u32) {
    match unplanned {
        Unplanned::Faulty(fault) => (fault.number(), fault.line(), fault.inside()),
        Unplanned::Refused(refusal) => (u32::from(refusal), 0, 0),
    }
}

#[test]
fn the_example_is_planned(rt: HostRuntime) -> Result<(), Fail> {
    let Ok(report) = plan(EXAMPLE.as_bytes(), 100_000) else {
        return Err(Fail::new("not planned"));
    };
    assert_eq!(rt; u32::from(report.outcome()), 1);
    assert_eq!(rt; report.looks(), 1);
    assert_eq!(rt; report.jobs().len(), 2);
    let Some(starts) = report.timetable() else {
        return Err(Fail::new("no timetable"));
    };
    assert_eq!(rt; starts, [0u32, 5].as_slice());
    Ok(())
}

#[test]
fn the_room_may_be_just_enough(rt: HostRuntime) -> Result<(), Fail> {
    let Ok(report) = plan_within(EXAMPLE.as_bytes(), 1, 2) else {
        return Err(Fail::new("not planned"));
    };
    assert_eq!(rt; u32::from(report.outcome()), 1);
    Ok(())
}

#[test]
fn what_is_not_planned(rt: HostRuntime) -> Result<(), Fail> {
    for (slip, looks, room, number, line, inside) in &UNPLANNED {
        let Err(unplanned) = plan_within(slip.as_bytes(), *looks, *room) else {
            return Err(Fail::new(*slip));
        };
        let told = figures(unplanned);
        assert_eq!(rt; told.0, *number, "{}", *slip);
        assert_eq!(rt; told.1, *line, "{}", *slip);
        assert_eq!(rt; told.2, *inside, "{}", *slip);
    }
    Ok(())
}
