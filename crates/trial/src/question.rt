// Questions to the schedulability tests, beneath the layers of a pile.
use crate::failure::Failure;
use book::book::Book;
use book::refusal::Refusal;
use schedule::any_change::AnyChange;
use schedule::charge::Charge;
use schedule::earliest_deadline::EarliestDeadline;
use schedule::fixed_priority::FixedPriority;
use schedule::layer::Layer;
use schedule::margin::Margin;
use schedule::test::Test;
use schedule::timing_test::TimingTest;
use std::alloc::Global;

/// A test by its name.
#[derive(Clone, Copy)]
pub enum TestName {
    Fixed,
    Earliest,
}

/// A layer as a line gives it, under no rule yet.
#[derive(Clone, Copy)]
pub enum LayerEntry {
    Charge(u32),
    Margin(u32),
}

/// The change of a layer, made under its rule.
impl TryFrom<LayerEntry> for AnyChange {
    type Error = Refusal;

    fn try_from(entry: LayerEntry) -> Result<AnyChange, Refusal> {
        match entry {
            LayerEntry::Charge(ticks) => Ok(AnyChange::Charge(Charge::try_from(ticks)?)),
            LayerEntry::Margin(thousandths) => {
                Ok(AnyChange::Margin(Margin::try_from(thousandths)?))
            }
        }
    }
}

/// What a line asks a test about: times, of any number, beneath layers, the outermost first.
#[derive(Drop)]
pub struct Question {
    pub layers: Vec<LayerEntry>,
    pub times: Vec<u32>,
}

impl Question {
    /// The changes of the layers, made in the order written.
    fn changes(&self, heap: Global) -> Result<Vec<AnyChange>, Failure> {
        self.layers
            .as_slice()
            .iter()
            .map(|layer| -> Result<AnyChange, Failure> { Ok(AnyChange::try_from(*layer)?) })
            .try_collect(heap)
    }
}

/// Whether the times pass the test.
pub(crate) fn ask(
    heap: Global,
    book: &Book,
    test: TestName,
    question: &Question,
) -> Result<bool, Failure> {
    let changes = question.changes(heap)?;
    let changes = changes.as_slice();
    let times = question.times.as_slice();
    // A name has to become a type somewhere: each test is a type of its own.
    match test {
        TestName::Fixed => Ok(ask_beneath(changes, FixedPriority, book, times)),
        TestName::Earliest => Ok(ask_beneath(changes, EarliestDeadline, book, times)),
    }
}

/// What fixed priority tells of the task at a place.
pub(crate) fn tell(
    heap: Global,
    book: &Book,
    place: u32,
    question: &Question,
) -> Result<Option<u32>, Failure> {
    let changes = question.changes(heap)?;
    let changes = changes.as_slice();
    let times = question.times.as_slice();
    Ok(tell_beneath(changes, FixedPriority, book, times, place as usize))
}

/// One more layer.
fn over<C, T>(change: C, below: T) -> Layer<C, T> {
    Layer { change, below }
}

/// Asks any test beneath the changes. The outer two are layers by themselves, over one that makes the others in turn, if any: so the
/// model is held against bare tests, layers over layers and slices of changes, each of which whoever uses the tests may write.
fn ask_beneath<T: Test + Copy>(changes: &[AnyChange], test: T, book: &Book, times: &[u32]) -> bool {
    match changes {
        [] => test.ask(book, times),
        [only] => over(*only, test).ask(book, times),
        [outer, second, others @ ..] => {
            over(*outer, over(*second, over(others, test))).ask(book, times)
        }
    }
}

/// Has any timing test tell beneath the changes, in the same way.
fn tell_beneath<T: TimingTest + Copy>(
    changes: &[AnyChange],
    test: T,
    book: &Book,
    times: &[u32],
    place: usize,
) -> Option<u32> {
    match changes {
        [] => test.tell(book, times, place),
        [only] => over(*only, test).tell(book, times, place),
        [outer, second, others @ ..] => {
            over(*outer, over(*second, over(others, test))).tell(book, times, place)
        }
    }
}
