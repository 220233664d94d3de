// The ranges that every book keeps. Each begins at 1; a book may have no task.

/// The largest cache, in sets.
pub const LARGEST_CACHE: u16 = 1024;

/// The most tasks of a book.
pub const MOST_TASKS: usize = 16;

/// The most times of a row: one for each partition class.
pub const MOST_TIMES: usize = 11;

/// The longest period of a task, in ticks.
pub const LONGEST_PERIOD: u32 = 1_000_000;

/// The longest worst-case execution time of a row, in ticks.
pub const LONGEST_TIME: u32 = 1_000_000;

/// The longest hyperperiod of a book, in ticks.
pub const LONGEST_CYCLE: u64 = 10_000_000_000;
