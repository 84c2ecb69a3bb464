// Drafts that the tests start from.
use planner::draft::Draft;
use sheet::refusal::Refusal;

/// A draft with one job.
pub(crate) fn one_job<P: Drop>(
    pile: P,
    duration: u32,
    release: u32,
    due: u32,
) -> Result<Draft<P>, Refusal> {
    let mut draft = Draft::new(pile);
    draft.enter(0, duration, release, due)?;
    Ok(draft)
}

/// A draft with two linked jobs at one station.
pub(crate) fn two_jobs<P: Drop>(pile: P) -> Result<Draft<P>, Refusal> {
    let mut draft = Draft::new(pile);
    draft.enter(0, 5, 0, 12)?;
    draft.enter(0, 4, 0, 9)?;
    draft.link(0, 1, 0)?;
    Ok(draft)
}

/// A draft with three jobs that do not fit together, though any two of them do.
pub(crate) fn three_jobs<P: Drop>(pile: P) -> Result<Draft<P>, Refusal> {
    let mut draft = Draft::new(pile);
    for _ in 0..3 {
        draft.enter(3, 8, 1, 18)?;
    }
    Ok(draft)
}

/// A draft with as many jobs as it takes: a minute each, on one station, at any time.
pub(crate) fn all_jobs<P: Drop>(pile: P) -> Result<Draft<P>, Refusal> {
    let mut draft = Draft::new(pile);
    for _ in 0..48 {
        draft.enter(0, 1, 0, 40_000)?;
    }
    Ok(draft)
}

/// The same with as many links as it takes: from job 0, 1 and 2 to others.
pub(crate) fn all_links<P: Drop>(pile: P) -> Result<Draft<P>, Refusal> {
    let mut draft = all_jobs(pile)?;
    for k in 0..96u32 {
        draft.link(k / 45, 3 + k % 45, 0)?;
    }
    Ok(draft)
}
