// What a sheet holds, or why it is refused, for a person to read. Numbers are widened by `as`: `u64::from` was tried, and the clauses
// of a line, which the check finds alone, then stay open.
ghost use Rattle.std.specs.Prelude.{◌≡◌, ◌+◌, ◌*◌, ◌≤◌, ◌++◌, map, length};
ghost use Rattle.book.specs.Books.{holds};
ghost use Rattle.book.specs.Held.{record_of};
ghost use Rattle.report.specs.Held.{HasRoom, text_in};
ghost use Rattle.report.specs.Texts.{book_text, fault_text, sheet_text, task_line, task_lines};

use crate::text::Text;
use book::book::Book;
use book::task::Task;
use sheet::fault::Fault;
use sheet::load::load;

/// Appends the line of a task.
fn put_task(text: &mut Text, task: &Task)
    requires { HasRoom text.old 400 }
    ensures after { text_in text.new ≡ text_in text.old ++ task_line (record_of task.now) }
    ensures few { text.new.count ≤ text.old.count + 400 }
{
    text.put_labelled(b"task ", task.number as u64);
    text.put_labelled(b": period ", task.period as u64);
    text.put_labelled(b", deadline ", task.deadline as u64);
    text.put(b", times");
    text.put_times(task.row.times());
    text.put(b"\n");
}

/// Appends the lines of the tasks.
fn put_tasks(text: &mut Text, tasks: &[Task])
    requires { HasRoom text.old (400 * length tasks.now) }
    ensures after { text_in text.new ≡ text_in text.old ++ task_lines (map record_of tasks.now) }
    ensures few { text.new.count ≤ text.old.count + 400 * length tasks.now }
{
    for task in tasks {
        put_task(text, task);
    }
}

/// The text of a book: a line for the cache, a line for each task, and one for the task count and the hyperperiod.
fn describe_book(book: &Book) -> Text
    ensures { text_in result ≡ book_text (holds book.now) }
{
    let mut text = Text::empty();
    text.put_labelled(b"cache size ", book.cache_size() as u64);
    text.put(b"\n");
    put_tasks(&mut text, book.tasks());
    text.put_labelled(b"task count ", book.task_count() as u64);
    text.put_labelled(b", hyperperiod ", book.hyperperiod());
    text.put(b"\n");
    text
}

/// The text of a fault: its number, its place and its word.
fn describe_fault(fault: Fault) -> Text
    ensures { text_in result ≡ fault_text fault }
{
    let mut text = Text::empty();
    text.put_labelled(b"refused ", fault.refusal.number() as u64);
    text.put_labelled(b" at ", fault.place as u64);
    text.put(b": ");
    text.put(fault.refusal.word().as_bytes());
    text.put(b"\n");
    text
}

/// The text of a sheet: that of its book, or of the fault that it is refused for.
pub fn describe(sheet: &[u8]) -> Text
    ensures { text_in result ≡ sheet_text sheet.now }
{
    let mut book = Book::new();
    match load(&mut book, sheet) {
        Ok(()) => describe_book(&book),
        Err(fault) => describe_fault(fault),
    }
}
