// What a class list asks of a book: whether it is one, what it takes of the cache, and the times and the work that it gives.
ghost use Rattle.std.specs.Prelude.{◌≡◌, [], ◌∷◌, length};
ghost use Rattle.book.specs.Books.{holds};
ghost use Rattle.book.specs.Checks.{Put, judged, short_check};
ghost use Rattle.book.specs.Classes.{chosen_times, fit_check, list_check, sizes, work};

use crate::book::Book;
use crate::class_list::{put_sizes, total_size};
use crate::refusal::Refusal;

impl Book {
    /// Whether the list names one class of each task's row, in the order of the tasks.
    pub fn check_list(&self, classes: &[u8]) -> Result<(), Refusal>
        ensures { result ≡ judged (list_check (holds self.now).tasks classes.now ∷ []) tt }
    {
        if self.table.names_each(classes) {
            Ok(())
        } else {
            Err(Refusal::List)
        }
    }

    /// Whether the list's partitions fit into the cache.
    pub fn check_fit(&self, classes: &[u8]) -> Result<(), Refusal>
        ensures { result
            ≡ judged
            (list_check (holds self.now).tasks classes.now
            ∷ fit_check (holds self.now).cache classes.now
            ∷ [])
            tt }
    {
        self.check_list(classes)?;
        if total_size(classes) > u32::from(self.cache) {
            Err(Refusal::Overrun)
        } else {
            Ok(())
        }
    }

    /// How many values the list gives, if it is one and the buffer has room for them. Classes and buffer stay two: the buffer is
    /// the caller's, who reads it behind the call.
    fn value_count<T>(&self, classes: &[u8], buffer: &[T]) -> Result<usize, Refusal>
        ensures { result
            ≡ judged
            (list_check (holds self.now).tasks classes.now
            ∷ short_check buffer.now classes.now
            ∷ [])
            (length classes.now) }
    {
        self.check_list(classes)?;
        if buffer.len() < classes.len() {
            return Err(Refusal::Short);
        }
        Ok(classes.len())
    }

    /// Puts the sets of each partition into the front of the buffer, and returns their count.
    pub fn list_sizes(&self, classes: &[u8], buffer: &mut [u16]) -> Result<usize, Refusal>
        ensures { Put buffer.old buffer.new
            (judged
            (list_check (holds self.now).tasks classes.now
            ∷ short_check buffer.old (sizes classes.now)
            ∷ [])
            (sizes classes.now))
            result }
    {
        let count = self.value_count(classes, buffer)?;
        put_sizes(classes, buffer);
        Ok(count)
    }

    /// Puts each task's execution time in its partition into the front of the buffer, and returns their count.
    pub fn list_times(&self, classes: &[u8], buffer: &mut [u32]) -> Result<usize, Refusal>
        ensures { Put buffer.old buffer.new
            (judged
            (list_check (holds self.now).tasks classes.now
            ∷ short_check buffer.old (chosen_times (holds self.now).tasks classes.now)
            ∷ [])
            (chosen_times (holds self.now).tasks classes.now))
            result }
    {
        let count = self.value_count(classes, buffer)?;
        self.table.put_times(classes, buffer);
        Ok(count)
    }

    /// The work of the list in one hyperperiod: over all tasks, their releases in it times their execution times, in ticks.
    pub fn list_work(&self, classes: &[u8]) -> Result<u64, Refusal>
        ensures { result
            ≡ judged (list_check (holds self.now).tasks classes.now ∷ [])
            (work (holds self.now).tasks (chosen_times (holds self.now).tasks classes.now)) }
    {
        self.check_list(classes)?;
        Ok(self.table.total_work(classes))
    }
}
