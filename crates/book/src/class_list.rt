// Class lists: one class for each task, in the order of the tasks. Here are the sums and lists that they give.
ghost use Rattle.std.specs.Prelude.{◌≡◌, ◌≤◌, ◌++◌, length, drop, sum};
ghost use Rattle.book.specs.Books.{records_in, used};
ghost use Rattle.book.specs.Classes.{chosen_times, names, sizes, work};

use crate::class::class_size;
use crate::table::Table;

/// The sets that the partitions of the list take together.
pub(crate) fn total_size(classes: &[u8]) -> u32
    requires { length classes.now ≤ 16 }
    ensures { result ≡ sum (sizes classes.now) }
{
    classes
        .iter()
        .map(|class| u32::from(class_size(*class).unwrap_or(0)))
        .sum()
}

/// Puts the size of each class into the front of the buffer. The place is counted, since nothing is known of what a loop over
/// `buffer.iter_mut().zip(classes)` wrote. It and `put_times` are two, since this looks at classes alone: one function that takes
/// the value as a closure would promise it place by place, where each of these says its list.
pub(crate) fn put_sizes(classes: &[u8], buffer: &mut [u16])
    requires { length classes.now ≤ length buffer.old }
    ensures { buffer.new ≡ sizes classes.now ++ drop (length classes.now) buffer.old }
{
    for (i, class) in classes.iter().enumerate() {
        buffer[i] = class_size(*class).unwrap_or(0);
    }
}

impl Table {
    /// Whether the list names one class of each task's row.
    pub(crate) fn names_each(&self, classes: &[u8]) -> bool
        ensures { result ≡ names (records_in self.now) classes.now }
    {
        let tasks = self.tasks();
        classes.len() == tasks.len()
            && tasks.iter().zip(classes).all(|(task, class)| usize::from(*class)
                < task.row.times().len())
    }

    /// Puts the execution time that each class gives into the front of the buffer. The place is counted, as in `put_sizes`.
    pub(crate) fn put_times(&self, classes: &[u8], buffer: &mut [u32])
        requires named { length (used self.now) ≡ length classes.now }
        requires room { length classes.now ≤ length buffer.old }
        ensures { buffer.new
            ≡ chosen_times (records_in self.now) classes.now ++ drop (length classes.now) buffer.old }
    {
        for (i, (task, class)) in self.tasks().iter().zip(classes).enumerate() {
            buffer[i] = task.row.time(*class).unwrap_or(0);
        }
    }

    /// The work of the list in one hyperperiod: over all tasks, the releases in it times the execution time. It fits: there are
    /// at most sixteen tasks, and each factor is within its range. That is an invariant of the loop; a `sum` of a chain left it open.
    pub(crate) fn total_work(&self, classes: &[u8]) -> u64
        ensures { result ≡ work (records_in self.now) (chosen_times (records_in self.now) classes.now) }
    {
        let mut sum = 0;
        for (task, class) in self.tasks().iter().zip(classes) {
            let time = task.row.time(*class).unwrap_or(0);
            sum += self.cycle / u64::from(task.period) * u64::from(time);
        }
        sum
    }
}
