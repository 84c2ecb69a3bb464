// The limits of a sheet. Times are whole minutes.

/// How many jobs a sheet holds at most.
pub const MAX_JOBS: usize = 48;

/// How many links a sheet holds at most.
pub const MAX_LINKS: usize = 96;

/// Stations are numbered from 0 to this.
pub const LAST_STATION: u32 = 7;

/// The longest duration of a job; the shortest is 1.
pub const MAX_DURATION: u32 = 2_000;

/// The longest wait of a link; the shortest is 0.
pub const MAX_WAIT: u32 = 2_000;

/// The last minute that a release, a due time or a start may have.
pub const LAST_MINUTE: u32 = 40_000;
