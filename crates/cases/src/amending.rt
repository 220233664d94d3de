// Amending one time of one task.
use crate::common::{refused, two_tasks};
use book::book::Book;
use book::refusal::Refusal;
use std::test::Fail;

/// The time of the second task at a class.
fn time(book: &Book, class: usize) -> Option<u32> {
    book.tasks().get(1)?.row.times().get(class).copied()
}

#[test]
fn amend_checks_10_5_6_7() -> Result<(), Fail> {
    let mut book = two_tasks()?;
    let before = book;
    // number, class, time and the refusal
    let cases = [
        (3, 9, 0, Refusal::Unknown),
        (2, 4, 0, Refusal::Class),
        (2, 255, 1, Refusal::Class),
        (2, 1, 0, Refusal::Time),
        (2, 0, 1_000_001, Refusal::Time),
        (2, 1, 13, Refusal::Rising),
        (2, 1, 8, Refusal::Rising),
        (2, 0, 8, Refusal::Rising),
        (2, 3, 10, Refusal::Rising),
    ];
    for (number, class, time, by) in cases {
        let answer = book.amend(number, class, time);
        refused(answer, by, &before, &book)?;
    }
    Ok(())
}

#[test]
fn amend_at_the_first_and_the_last_class(rt: HostRuntime) -> Result<(), Fail> {
    let mut book = two_tasks()?;
    // class 0 has no time before it, the last none after it
    book.amend(2, 0, 1_000_000)?;
    assert_eq!(rt; time(&book, 0), Some(1_000_000));
    book.amend(2, 3, 1)?;
    assert_eq!(rt; time(&book, 3), Some(1));
    assert_eq!(rt; time(&book, 1), Some(9));
    Ok(())
}

#[test]
fn amend_may_meet_its_neighbours(rt: HostRuntime) -> Result<(), Fail> {
    let mut book = two_tasks()?;
    book.amend(2, 1, 12)?;
    book.amend(2, 1, 9)?;
    book.amend(2, 2, 5)?;
    assert_eq!(rt; time(&book, 2), Some(5));
    Ok(())
}
