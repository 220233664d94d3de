// The book: a cache size and the tasks that share the cache.
ghost use Rattle.std.specs.Prelude.{◌≤◌};

use crate::table::Table;

/// The input of a planner: the size of the instruction cache in sets, 1 to 1,024, and the tasks that its partitions are dealt to.
#[derive(Clone, Copy, PartialEq, Eq)]
pub struct Book {
    pub(crate) cache: u16,
    pub(crate) table: Table,
    ghost sized: { (1 ≤ cache) × (cache ≤ 1024) },
}
