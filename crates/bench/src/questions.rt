// The questions: a book, and the lists of times that a test is asked about.
use anyhow::anyhow;
use book::book::Book;
use book::new_task::NewTask;
use schedule::test::Test;
use std::alloc::Global;

/// A book and lists of times.
#[derive(Drop)]
pub(crate) struct Questions {
    book: Book,
    /// The lists end to end. No list of lists: they are all cut anew by the number of tasks that there are when they are counted or
    /// asked, and a task may be entered behind a list.
    lists: Vec<u32>,
}

impl Questions {
    /// No task and no list.
    pub(crate) fn new(heap: Global) -> Questions {
        Questions {
            book: Book::new(),
            lists: Vec::new(heap),
        }
    }

    /// Enters a task. Its row is of no use here: the times come with the lists.
    pub(crate) fn enter(&mut self, number: u8, period: u32, deadline: u32) -> anyhow::Result<()> {
        self.book.enter(NewTask {
            number,
            period,
            deadline,
            times: &[1],
        })?;
        Ok(())
    }

    /// Adds a list, which has a time for each task that was entered.
    pub(crate) fn add(&mut self, times: &[&str]) -> anyhow::Result<()> {
        if times.len() != self.book.task_count() {
            return Err(anyhow!("a list of another length than the tasks"));
        }
        // They go behind those that stand: collecting them apart would take a second vector.
        for time in times {
            self.lists.push(time.parse::<u32>()?)?;
        }
        Ok(())
    }

    /// How many lists there are, where there is a task.
    pub(crate) fn count(&self) -> u64 {
        (self.lists.len() / self.book.task_count().max(1)) as u64
    }

    /// How many lists pass the test, counted again in every round.
    pub(crate) fn ask<T: Test>(&self, test: &T, rounds: u64) -> u64 {
        let mut yes: u64 = 0;
        for _ in 0..rounds {
            yes = yes.wrapping_add(count_passes(test, &self.book, self.lists.as_slice()));
        }
        yes
    }
}

/// How many of the lists, which stand end to end, pass the test.
fn count_passes<T: Test>(test: &T, book: &Book, lists: &[u32]) -> u64 {
    lists
        .chunks(book.task_count().max(1))
        .filter(|times| test.ask(book, times))
        .count() as u64
}
