// The figures that bound the tasks of a station, as `specs/Limits.antt` has them.

/// The latest minute at which a task may end: the latest time of a timetable plus the longest span.
pub const HORIZON: u32 = 42_000;

/// The longest span.
pub const LONGEST: u32 = 2_000;

/// The most tasks at a station.
pub const MOST_TASKS: usize = 48;

/// The most work at a station: that of as many tasks as there may be, each as long as it may be.
pub const MOST_WORK: u32 = 48 * LONGEST;
