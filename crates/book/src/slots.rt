// The slots of a table: a task put in among the first of them, and one taken out. The count of those used is a parameter:
// `insert_at(&mut self.tasks[..count + 1], ..)` was tried from `Table`, and the borrow checker does not cover that function then.
ghost use Rattle.std.specs.Prelude.{◌≡◌, ◌+◌, ◌-◌, ◌<◌, ◌≤◌, ◌∷◌, map, length, take, drop};
ghost use Rattle.book.specs.Held.{blank, fields, period_in};
ghost use Rattle.book.specs.Hyperperiod.{hyperperiod};
ghost use Rattle.std.specs.List.{insert, remove};

use crate::multiple::lcm;
use crate::task::Task;

/// Puts `task` at the place `at` among the first `count` slots; what stood there and after it moves one on.
pub(crate) fn insert_at(tasks: &mut [Task], count: usize, at: usize, task: Task)
    requires room { count < length tasks.old }
    requires inside { at ≤ count }
    ensures front { take (count + 1) tasks.new ≡ insert (take count tasks.old) at task }
    ensures rest { drop (count + 1) tasks.new ≡ drop (count + 1) tasks.old }
{
    tasks[count] = task;
    tasks[at..count + 1].rotate_right(1);
}

/// Takes away what stands at the place `at` of the first `count` slots; the last of them is then unused.
pub(crate) fn remove_at(tasks: &mut [Task], count: usize, at: usize)
    requires room { count ≤ length tasks.old }
    requires inside { at < count }
    ensures front { take (count - 1) tasks.new ≡ remove (take count tasks.old) at }
    ensures rest { map fields (drop (count - 1) tasks.new) ≡ blank ∷ map fields (drop count tasks.old) }
{
    tasks[at..count].rotate_left(1);
    tasks[count - 1] = Task::blank();
}

/// The hyperperiod of the tasks: the least common multiple folded over their periods. The hyperperiod of a front never
/// exceeds that of the whole, so each step stays within range.
pub(crate) fn hyperperiod(tasks: &[Task]) -> u64
    requires { hyperperiod (map period_in tasks.now) ≤ 10000000000 }
    ensures { result ≡ hyperperiod (map period_in tasks.now) }
{
    let mut whole: u64 = 1;
    for task in tasks {
        whole = lcm(task.period, whole);
    }
    whole
}
