// The records of a sheet, and a job's window of starts.

/// A job: one stay of a timber at a station, which takes one job at a time.
#[derive(Clone, Copy, Default, PartialEq, Eq, Debug)]
pub struct Job {
    pub station: u32,
    /// Minutes from its start to its end.
    pub duration: u32,
    /// The soonest start.
    pub release: u32,
    /// The latest end.
    pub due: u32,
}

/// A link: job `to` starts no sooner than the end of job `from` plus the wait.
#[derive(Clone, Copy, Default, PartialEq, Eq, Debug)]
pub struct Link {
    pub from: usize,
    pub to: usize,
    pub wait: u32,
}

/// The starts that are left to a job: from the first, `lo`, to the last, `hi`.
#[derive(Clone, Copy, Default, PartialEq, Eq, Debug)]
pub struct Window {
    pub lo: u32,
    pub hi: u32,
}
