// What a draft refuses, with its sheet untouched, and the order of the causes.
use crate::drafts::{all_jobs, all_links, two_jobs};
use house::pile::{HOUSE_PILE, HousePile};
use planner::draft::Draft;
use sheet::refusal::Refusal;
use std::process::Abort;
use std::test::Fail;

/// Station, duration, release and due time of jobs, and the number that entering them answers.
static JOBS: [(u32, u32, u32, u32, u32); 15] = [
    (8, 5, 0, 12, 3),
    (8, 0, 40_001, 0, 3),
    (u32::MAX, u32::MAX, u32::MAX, u32::MAX, 3),
    (0, 0, 0, 12, 4),
    (0, 2_001, 0, 2_001, 4),
    (0, 2_001, 0, 40_000, 4),
    (7, 0, 40_001, 0, 4),
    (0, 5, 0, 40_001, 5),
    (0, 5, 40_001, 40_000, 5),
    (0, 5, 40_001, 0, 5),
    (7, 2_000, u32::MAX, u32::MAX, 5),
    (0, 5, 5, 9, 6),
    (0, 1, 0, 0, 6),
    (0, 1, 40_000, 40_000, 6),
    (7, 2_000, 40_000, 0, 6),
];

/// From, to and wait of links on a draft of two linked jobs, and the number that entering them answers.
static LINKS: [(u32, u32, u32, u32); 10] = [
    (2, 0, 0, 1),
    (0, 2, 0, 1),
    (2, 2, 2_001, 1),
    (u32::MAX, u32::MAX, u32::MAX, 1),
    (0, 0, 0, 7),
    (1, 1, 2_001, 7),
    (1, 0, 2_001, 8),
    (0, 1, 2_001, 8),
    (0, 1, 0, 9),
    (0, 1, 2_000, 9),
];

/// The same on a draft with all its links.
static LINKS_IN_FULL: [(u32, u32, u32, u32); 5] = [
    (48, 0, 0, 1),
    (3, 3, 0, 7),
    (3, 4, 2_001, 8),
    (0, 3, 0, 9),
    (3, 4, 0, 10),
];

/// Job, release and due time of moves on a draft of two jobs, and the number that they answer.
static MOVES: [(u32, u32, u32, u32); 7] = [
    (2, 0, 12, 1),
    (u32::MAX, 40_001, 0, 1),
    (0, 0, 40_001, 5),
    (0, 40_001, 40_000, 5),
    (0, 40_001, 0, 5),
    (0, 8, 12, 6),
    (1, 40_000, 40_000, 6),
];

/// The number of a refusal, or 0.
fn number<A: Drop>(answer: Result<A, Refusal>) -> u32 {
    match answer {
        Ok(_) => 0,
        Err(refusal) => u32::from(refusal),
    }
}

/// The drafts have the same jobs and links.
fn check_same(rt: &impl Abort, draft: &Draft<HousePile>, twin: &Draft<HousePile>) {
    assert_eq!(rt; draft.sheet().jobs(), twin.sheet().jobs(), "jobs");
    assert_eq!(rt; draft.sheet().links(), twin.sheet().links(), "links");
}

/// The links are refused so, and leave the draft like its twin.
fn check_links(
    rt: &impl Abort,
    mut draft: Draft<HousePile>,
    twin: Draft<HousePile>,
    links: &[(u32, u32, u32, u32)],
) {
    for (from, to, wait, refusal) in links {
        assert_eq!(rt;
            number(draft.link(*from, *to, *wait)),
            *refusal,
            "{from} {to} {wait}"
        );
        check_same(rt, &draft, &twin);
    }
}

#[test]
fn jobs_are_refused(rt: HostRuntime) -> Result<(), Fail> {
    let mut draft = two_jobs(HOUSE_PILE)?;
    let twin = two_jobs(HOUSE_PILE)?;
    for (station, duration, release, due, refusal) in &JOBS {
        assert_eq!(rt;
            number(draft.enter(*station, *duration, *release, *due)),
            *refusal,
            "{station} {duration} {release} {due}"
        );
        check_same(&rt, &draft, &twin);
    }
    Ok(())
}

#[test]
fn a_full_sheet_refuses_every_job(rt: HostRuntime) -> Result<(), Fail> {
    let mut draft = all_jobs(HOUSE_PILE)?;
    assert_eq!(rt; number(draft.enter(0, 1, 0, 40_000)), 2);
    assert_eq!(rt; number(draft.enter(8, 0, 40_001, 0)), 2);
    check_same(&rt, &draft, &all_jobs(HOUSE_PILE)?);
    Ok(())
}

#[test]
fn links_are_refused(rt: HostRuntime) -> Result<(), Fail> {
    check_links(&rt, two_jobs(HOUSE_PILE)?, two_jobs(HOUSE_PILE)?, &LINKS);
    check_links(
        &rt,
        all_links(HOUSE_PILE)?,
        all_links(HOUSE_PILE)?,
        &LINKS_IN_FULL,
    );
    Ok(())
}

#[test]
fn moves_are_refused(rt: HostRuntime) -> Result<(), Fail> {
    let mut draft = two_jobs(HOUSE_PILE)?;
    let twin = two_jobs(HOUSE_PILE)?;
    for (job, release, due, refusal) in &MOVES {
        assert_eq!(rt;
            number(draft.move_job(*job, *release, *due)),
            *refusal,
            "{job} {release} {due}"
        );
        check_same(&rt, &draft, &twin);
    }
    Ok(())
}

#[test]
fn limits_are_taken(rt: HostRuntime) -> Result<(), Fail> {
    let mut draft = Draft::new(HOUSE_PILE);
    assert_eq!(rt; draft.enter(7, 2_000, 0, 2_000)?, 0);
    assert_eq!(rt; draft.enter(0, 5, 5, 10)?, 1);
    assert_eq!(rt; draft.enter(0, 1, 39_999, 40_000)?, 2);
    assert_eq!(rt; number(draft.link(0, 1, 2_000)), 0);
    assert_eq!(rt; number(draft.link(1, 0, 0)), 0);
    assert_eq!(rt; number(draft.move_job(0, 38_000, 40_000)), 0);
    Ok(())
}
