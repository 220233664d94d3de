// Several changes of one execution time, for programs that learn only as they run how many layers to pile up.
ghost use Rattle.std.proofs.Common.{arith};
ghost use Rattle.schedule.specs.Layers.{capped, through};
ghost use Rattle.schedule.specs.Lemmas.Changes.{through_never, through_order};

use crate::change::{CAP, Change};

/// A slice of changes is one change: each in turn, the first one first. What comes of them is capped here too, since a slice may be
/// empty.
impl<C: Change> Change for &[C] {
    ghost changed = { λ changes x. capped (through C.Change.changed changes.now x) };

    ghost keeps_order = { λ changes x y le.
        omega (arith, through_order C.Change.changed C.Change.keeps_order changes.now x y le) };

    ghost never_shortens = { λ changes x le.
        omega (arith, through_never C.Change.changed C.Change.keeps_order C.Change.never_shortens changes.now x le) };

    fn change(&self, time: u32) -> u32 {
        let changed = self.iter().fold(time, |time, change| change.change(time));
        changed.min(CAP as u32)
    }
}
