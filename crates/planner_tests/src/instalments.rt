// Advances of 1, 2, 3 and more looks end where one advance of their sum ends.
use crate::drafts::all_jobs;
use forbid_all::ForbidAll;
use house::pile::HOUSE_PILE;
use planner::draft::Draft;
use planner::state::Search;
use rule::narrowing::Rule;
use sheet::refusal::Refusal;
use std::process::Abort;
use std::test::Fail;

/// Grants looks in so many instalments: what was granted and what was made.
fn advance_by_instalments<P: Rule>(
    search: &mut Search<P>,
    count: u32,
) -> Result<(u32, u32), Refusal> {
    let mut granted: u32 = 0;
    let mut made: u32 = 0;
    for k in 0..count {
        let looks = k.saturating_add(1);
        let (_, more) = search.advance(looks)?;
        granted = granted.saturating_add(looks);
        made = made.saturating_add(more);
    }
    Ok((granted, made))
}

/// Two searches of one draft end alike, one by so many instalments and one at once.
fn check_instalments<P: Rule + Drop>(
    rt: &impl Abort,
    mut by_instalments: Search<P>,
    mut at_once: Search<P>,
    count: u32,
) -> Result<(), Fail> {
    let (granted, made) = advance_by_instalments(&mut by_instalments, count)?;
    let (outcome, looks) = at_once.advance(granted)?;
    assert_eq!(rt; u32::from(by_instalments.outcome()), outcome, "outcome");
    assert_eq!(rt; made, looks, "looks made");
    assert_eq!(rt; by_instalments.timetable(), at_once.timetable(), "starts");
    Ok(())
}

fn two_free_jobs() -> Result<Draft<ForbidAll>, Refusal> {
    let mut draft = Draft::new(ForbidAll);
    draft.enter(0, 1, 0, 8)?;
    draft.enter(1, 1, 0, 8)?;
    Ok(draft)
}

#[test]
fn instalments_end_as_their_sum(rt: HostRuntime) -> Result<(), Fail> {
    for count in [1u32, 2, 5, 15, 16] {
        let first = two_free_jobs()?.close();
        let second = two_free_jobs()?.close();
        check_instalments(&rt, first, second, count)?;
    }
    for count in [7u32, 38, 39] {
        let first = all_jobs(HOUSE_PILE)?.close();
        let second = all_jobs(HOUSE_PILE)?.close();
        check_instalments(&rt, first, second, count)?;
    }
    Ok(())
}
