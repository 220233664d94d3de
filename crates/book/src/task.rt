// A task: the record that a book keeps of one sporadic task.
ghost use Rattle.std.specs.Prelude.{◌≤◌};

use crate::row::Row;

/// One sporadic task. Its fields are open, since the ghost fields hold of every task that can be made.
#[derive(Clone, Copy, PartialEq, Eq)]
pub struct Task {
    /// 1 to 255; the smaller, the higher the priority.
    pub number: u8,
    /// The least ticks between two releases, 1 to 1,000,000.
    pub period: u32,
    /// The relative deadline, 1 to the period.
    pub deadline: u32,
    /// The worst-case execution time in each partition class.
    pub row: Row,
    ghost numbered: { (1 ≤ number) × (number ≤ 255) },
    ghost timed: { (1 ≤ deadline) × (deadline ≤ period) × (period ≤ 1000000) },
}
