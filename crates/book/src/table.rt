// The table: the tasks of a book in ascending order of number, with their hyperperiod.
ghost use Rattle.std.specs.Prelude.{◌≡◌, ◌-◌, ◌≤◌, map, length, drop, replicate};
ghost use Rattle.book.specs.Held.{blank, fields, numbers, periods};
ghost use Rattle.book.specs.Hyperperiod.{hyperperiod};
ghost use Rattle.book.specs.Rules.{Ascending};

use crate::limits::MOST_TASKS;
use crate::task::Task;

/// At most sixteen tasks in ascending order of number, and the least common multiple of their periods, at most 10,000,000,000.
/// The slots behind the tasks hold one fixed task, so that equal tables are equal values. It is an array with a count and no
/// `ArrayVec`, which takes no memory from the heap either but is not `Copy`, as books are.
#[derive(Clone, Copy, PartialEq, Eq)]
pub(crate) struct Table {
    pub(crate) tasks: [Task; MOST_TASKS],
    pub(crate) count: usize,
    pub(crate) cycle: u64,
    ghost few: { (count ≤ 16) × (length tasks ≡ 16) },
    ghost ascending: { Ascending (numbers tasks count) },
    ghost cyclic: { (cycle ≡ hyperperiod (periods tasks count)) × (cycle ≤ 10000000000) },
    ghost spare: { map fields (drop count tasks) ≡ replicate (16 - count) blank },
}
