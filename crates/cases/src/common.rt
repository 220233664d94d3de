// What the cases share.
use book::book::Book;
use book::new_task::NewTask;
use std::test::Fail;

/// The call was refused by this, and the whole book is as it was.
pub(crate) fn refused<E: Copy + PartialEq>(
    answer: Result<(), E>,
    by: E,
    before: &Book,
    after: &Book,
) -> Result<(), Fail> {
    if answer != Err(by) {
        return Err(Fail::new("another answer"));
    }
    if before != after {
        return Err(Fail::new("the book is not as it was"));
    }
    Ok(())
}

/// A task that is to be entered.
pub(crate) fn new_task(number: u8, period: u32, deadline: u32, times: &[u32]) -> NewTask<'_> {
    NewTask {
        number,
        period,
        deadline,
        times,
    }
}

/// The two-task book: cache 4, rows 4, 3, 2 and 12, 9, 9, 5.
pub(crate) fn two_tasks() -> Result<Book, Fail> {
    let mut book = Book::new();
    book.make(4)?;
    book.enter(new_task(1, 10, 5, &[4, 3, 2]))?;
    book.enter(new_task(2, 20, 20, &[12, 9, 9, 5]))?;
    Ok(book)
}
