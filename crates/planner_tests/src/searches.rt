// Searches, by what each advance answers and by their starts.
use crate::drafts::{all_jobs, one_job, three_jobs, two_jobs};
use forbid_all::ForbidAll;
use house::pile::{HOUSE_PILE, HousePile};
use planner::draft::Draft;
use planner::state::Search;
use rule::narrowing::Rule;
use sheet::refusal::Refusal;
use std::process::Abort;
use std::test::Fail;

/// An advance: the looks granted, the number of its outcome or refusal, and the looks made.
type Advance = (u32, u32, u32);

/// One look at a time, and grants that are out of range before and after it is settled.
static LOOK_BY_LOOK: [Advance; 8] = [
    (0, 11, 0),
    (1, 0, 1),
    (1, 0, 1),
    (1_000_001, 11, 0),
    (1, 1, 1),
    (0, 11, 0),
    (1_000_001, 11, 0),
    (1_000_000, 1, 0),
];

/// Both parts of a window are looked at.
static BOTH_PARTS: [Advance; 4] = [(2, 0, 2), (9, 2, 1), (0, 11, 0), (9, 2, 0)];

/// One more look than a path has places.
static FULL_PATH: [Advance; 2] = [(768, 0, 768), (1, 1, 1)];

/// The advance answers so.
fn check_advance<P: Rule>(rt: &impl Abort, search: &mut Search<P>, advance: Advance) {
    let (looks, number, made) = advance;
    let answer = match search.advance(looks) {
        Ok(answer) => answer,
        Err(refusal) => (u32::from(refusal), 0),
    };
    assert_eq!(rt; answer.0, number, "outcome");
    assert_eq!(rt; answer.1, made, "looks made");
}

/// The jobs have these starts, or where there are none no timetable was found.
fn check_starts<P>(rt: &impl Abort, search: &Search<P>, jobs: u32, starts: &[u32]) {
    for job in 0..jobs {
        let start = starts.get(job as usize).copied();
        assert_eq!(rt; search.start(job), start.ok_or(Refusal::NotFound));
    }
    assert_eq!(rt; search.start(jobs), Err(Refusal::UnknownJob));
}

/// The search of a draft answers its advances so and ends with these starts; the draft again.
fn check_search<P: Rule + Drop>(
    rt: &impl Abort,
    draft: Draft<P>,
    advances: &[Advance],
    starts: &[u32],
) -> Draft<P> {
    let jobs = draft.sheet().jobs().len() as u32;
    let mut search = draft.close();
    check_starts(rt, &search, jobs, &[]);
    for advance in advances {
        check_advance(rt, &mut search, *advance);
    }
    check_starts(rt, &search, jobs, starts);
    search.reopen()
}

/// The same with the house pile.
fn check_house(
    rt: &impl Abort,
    draft: Draft<HousePile>,
    advances: &[Advance],
    starts: &[u32],
) -> Draft<HousePile> {
    check_search(rt, draft, advances, starts)
}

#[test]
fn one_job_look_by_look(rt: HostRuntime) -> Result<(), Fail> {
    check_house(&rt, one_job(HOUSE_PILE, 2, 0, 5)?, &LOOK_BY_LOOK[0..4], &[]);
    check_house(&rt, one_job(HOUSE_PILE, 2, 0, 5)?, &LOOK_BY_LOOK, &[0]);
    Ok(())
}

#[test]
fn a_dead_first_part_alone_is_not_impossible(rt: HostRuntime) -> Result<(), Fail> {
    check_search(&rt, one_job(ForbidAll, 1, 0, 2)?, &BOTH_PARTS, &[]);
    Ok(())
}

#[test]
fn no_jobs_and_too_much_work(rt: HostRuntime) -> Result<(), Fail> {
    check_house(&rt, Draft::new(HOUSE_PILE), &[(9, 1, 1)], &[]);
    check_house(&rt, three_jobs(HOUSE_PILE)?, &[(9, 2, 1)], &[]);
    Ok(())
}

#[test]
fn narrowed_windows_do_not_outlive_a_reopen(rt: HostRuntime) -> Result<(), Fail> {
    let mut draft = check_house(&rt, two_jobs(HOUSE_PILE)?, &[(100_000, 1, 1)], &[0, 5]);
    draft.move_job(1, 0, 20)?;
    check_house(&rt, draft, &[(100_000, 1, 8)], &[0, 5]);
    Ok(())
}

#[test]
fn a_full_sheet_fills_the_path(rt: HostRuntime) -> Result<(), Fail> {
    check_house(&rt, all_jobs(HOUSE_PILE)?, &FULL_PATH[0..1], &[]);
    let mut starts = [0u32; 48];
    for (k, start) in starts.iter_mut().enumerate() {
        *start = k as u32;
    }
    check_house(&rt, all_jobs(HOUSE_PILE)?, &FULL_PATH, &starts);
    Ok(())
}
