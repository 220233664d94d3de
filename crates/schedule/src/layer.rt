// Layers: a test over any test, asking it with changed times.
ghost use Rattle.std.specs.Prelude.{◌≡◌, ◌≤◌, map, length, true, []};
ghost use Rattle.book.specs.Books.{holds};
ghost use Rattle.schedule.specs.Layers.{layered, layered_told};
ghost use Rattle.schedule.specs.Lemmas.Layered.{layered_lawful, layered_tells};
ghost use Rattle.schedule.specs.Timed.{well_shaped};

use crate::change::{Change, change_all};
use crate::test::Test;
use crate::timed_tasks::TimedTasks;
use crate::timing_test::TimingTest;
use arrayvec::ArrayVec;
use book::book::Book;
use book::limits::MOST_TASKS;

/// A change of times over the test below: it asks that test with each time changed. Of two layers the outer one changes first.
#[derive(Clone, Copy)]
pub struct Layer<C, T> {
    pub change: C,
    pub below: T,
}

/// Puts the changed times into an empty vector. They have room: there is one for each task of a book. The vector is lent, since
/// handing one up by value in an option made questions about few tasks take half as long again.
fn change_into<C: Change>(change: &C, times: &[u32], changed: &mut ArrayVec<u32, MOST_TASKS>)
    requires few { length times.now ≤ 16 }
    requires empty { changed.old.items ≡ [] }
    ensures { changed.new.items ≡ map (C.Change.changed change.now) times.now }
{
    changed.try_extend_from_slice(times).unwrap();
    change_all(change, changed.as_mut_slice());
}

impl<C: Change, T> Layer<C, T> {
    /// Puts the times that the test below is asked about into an empty vector; or says that the times are no well-shaped list of
    /// the book.
    fn hand_below(
        &self,
        book: &Book,
        times: &[u32],
        changed: &mut ArrayVec<u32, MOST_TASKS>,
    ) -> bool
        requires empty { changed.old.items ≡ [] }
        ensures shape { result ≡ well_shaped (holds book.now).tasks times.now }
        ensures changed { result ≡ true → changed.new.items ≡ map (C.Change.changed self.now.change) times.now }
    {
        if !TimedTasks::of(book, times).is_well_shaped() {
            return false;
        }
        change_into(&self.change, times, changed);
        true
    }
}

impl<C: Change, T: Test> Test for Layer<C, T> {
    ghost passes = { λ layer. layered (C.Change.changed layer.change) (T.Test.passes layer.below) };

    ghost lawful = { λ layer.
        layered_lawful (C.Change.changed layer.change) (C.Change.keeps_order layer.change) (C.Change.never_shortens layer.change)
        (T.Test.passes layer.below) (T.Test.lawful layer.below) };

    fn ask(&self, book: &Book, times: &[u32]) -> bool {
        let mut changed = ArrayVec::new();
        if !self.hand_below(book, times, &mut changed) {
            return false;
        }
        self.below.ask(book, changed.as_slice())
    }
}

impl<C: Change, T: TimingTest> TimingTest for Layer<C, T> {
    ghost told = { λ layer. layered_told (C.Change.changed layer.change) (T.TimingTest.told layer.below) };

    ghost tells = { λ layer l keeps xs place.
        let change = C.Change.changed layer.change in
        layered_tells change (C.Change.keeps_order layer.change) (C.Change.never_shortens layer.change)
        (T.Test.passes layer.below) (T.TimingTest.told layer.below) l xs place
        (T.TimingTest.tells layer.below l keeps (map change xs) place) };

    fn tell(&self, book: &Book, times: &[u32], place: usize) -> Option<u32> {
        let mut changed = ArrayVec::new();
        if !self.hand_below(book, times, &mut changed) {
            return None;
        }
        self.below.tell(book, changed.as_slice(), place)
    }
}
