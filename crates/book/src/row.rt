// A row: a task's worst-case execution times, one for each partition class from 0 up.
ghost use Rattle.std.specs.Prelude.{◌≡◌, ◌-◌, ◌≤◌, length, drop, replicate};
ghost use Rattle.book.specs.Rules.{Falling, Within};

use crate::limits::MOST_TIMES;

/// The worst-case execution times of a task by partition class: 1 to 11 times of 1 to 1,000,000 ticks, none above the one before it.
/// The slots behind them hold 1, so that equal rows are equal values. It is an array with a count and no `ArrayVec`, which takes no
/// memory from the heap either but is not `Copy`, as books are.
#[derive(Clone, Copy, PartialEq, Eq)]
pub struct Row {
    pub(crate) times: [u32; MOST_TIMES],
    pub(crate) count: usize,
    ghost sized: { (1 ≤ count) × (count ≤ 11) × (length times ≡ 11) },
    ghost within: { Within times count },
    ghost falling: { Falling times count },
    ghost spare: { drop count times ≡ replicate (11 - count) 1 },
}
