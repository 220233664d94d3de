// Making a book, entering tasks and withdrawing them.
use crate::common::{new_task, refused, two_tasks};
use book::book::Book;
use book::refusal::Refusal;
use std::test::Fail;

#[test]
fn a_cache_has_1_to_1024_sets(rt: HostRuntime) -> Result<(), Fail> {
    let mut book = two_tasks()?;
    let before = book;
    refused(book.make(0), Refusal::Cache, &before, &book)?;
    refused(book.make(1025), Refusal::Cache, &before, &book)?;
    book.make(1024)?;
    assert_eq!(rt; book.cache_size(), 1024);
    assert_eq!(rt; book.task_count(), 0);
    assert_eq!(rt; Book::new().cache_size(), 1);
    Ok(())
}

#[test]
fn enter_refuses_by_the_first_check_that_applies(rt: HostRuntime) -> Result<(), Fail> {
    let mut book = two_tasks()?;
    let before = book;
    // number, period, deadline, times and the refusal: a later check would apply to most of them too
    let cases: [(u8, u32, u32, &[u32], Refusal); 11] = [
        (0, 0, 0, &[], Refusal::Number),
        (3, 0, 0, &[], Refusal::Period),
        (3, 1_000_001, 0, &[], Refusal::Period),
        (3, 10, 0, &[], Refusal::Deadline),
        (3, 10, 11, &[], Refusal::Deadline),
        (3, 10, 10, &[], Refusal::Class),
        (
            3,
            10,
            10,
            &[0, 9, 0, 0, 0, 0, 0, 0, 0, 0, 0, 0],
            Refusal::Class,
        ),
        (3, 10, 10, &[1, 2, 0], Refusal::Time),
        (3, 10, 10, &[1_000_001], Refusal::Time),
        (1, 10, 10, &[1, 2], Refusal::Rising),
        (1, 10, 10, &[1, 1], Refusal::Taken),
    ];
    for (number, period, deadline, times, by) in cases {
        let answer = book.enter(new_task(number, period, deadline, times));
        refused(answer, by, &before, &book)?;
    }
    Ok(())
}

#[test]
fn a_row_has_1_to_11_times(rt: HostRuntime) -> Result<(), Fail> {
    let mut book = Book::new();
    book.enter(new_task(7, 1_000_000, 1, &[1_000_000]))?;
    book.enter(new_task(9, 1, 1, &[11, 10, 9, 8, 7, 6, 5, 4, 3, 2, 1]))?;
    assert_eq!(rt; book.task_count(), 2);
    assert_eq!(rt; book.hyperperiod(), 1_000_000);
    Ok(())
}

#[test]
fn a_book_has_sixteen_tasks_at_most(rt: HostRuntime) -> Result<(), Fail> {
    let mut book = Book::new();
    for number in 1..17u8 {
        book.enter(new_task(17 - number, 100, 50, &[3, 2]))?;
    }
    assert_eq!(rt; book.task_count(), 16);
    let before = book;
    refused(
        book.enter(new_task(16, 100, 50, &[3, 2])),
        Refusal::Taken,
        &before,
        &book,
    )?;
    refused(
        book.enter(new_task(17, 100, 50, &[3, 2])),
        Refusal::Full,
        &before,
        &book,
    )?;
    // the count of tasks comes before the hyperperiod
    refused(
        book.enter(new_task(18, 999_983, 50, &[3, 2])),
        Refusal::Full,
        &before,
        &book,
    )?;
    let tasks = book.tasks();
    assert!(rt; tasks.len() == 16);
    assert_eq!(rt; tasks[0].number, 1);
    assert_eq!(rt; tasks[15].number, 16);
    Ok(())
}

#[test]
fn a_hyperperiod_is_at_most_10000000000(rt: HostRuntime) -> Result<(), Fail> {
    let mut book = Book::new();
    book.enter(new_task(5, 100_000, 1, &[1]))?;
    let before = book;
    refused(
        book.enter(new_task(6, 100_001, 1, &[1])),
        Refusal::Cycle,
        &before,
        &book,
    )?;
    book.enter(new_task(6, 99_999, 1, &[1]))?;
    assert_eq!(rt; book.hyperperiod(), 9_999_900_000);
    book.withdraw(5)?;
    assert_eq!(rt; book.hyperperiod(), 99_999);
    Ok(())
}

#[test]
fn withdraw_takes_out_one_task(rt: HostRuntime) -> Result<(), Fail> {
    let mut book = two_tasks()?;
    let before = book;
    refused(book.withdraw(3), Refusal::Unknown, &before, &book)?;
    book.withdraw(1)?;
    assert_eq!(rt; book.task_count(), 1);
    assert_eq!(rt; book.hyperperiod(), 20);
    book.enter(new_task(1, 10, 5, &[4, 3, 2]))?;
    // equal books are equal values, whatever calls made them
    refused(book.withdraw(9), Refusal::Unknown, &before, &book)?;
    book.withdraw(2)?;
    book.withdraw(1)?;
    assert_eq!(rt; book.hyperperiod(), 1);
    Ok(())
}

#[test]
fn append_wants_a_number_above_the_last(rt: HostRuntime) -> Result<(), Fail> {
    let mut book = two_tasks()?;
    let before = book;
    refused(
        book.append(new_task(2, 10, 10, &[1])),
        Refusal::Order,
        &before,
        &book,
    )?;
    refused(
        book.append(new_task(1, 10, 10, &[1])),
        Refusal::Order,
        &before,
        &book,
    )?;
    refused(
        book.append(new_task(1, 10, 10, &[1, 2])),
        Refusal::Rising,
        &before,
        &book,
    )?;
    book.append(new_task(255, 10, 10, &[1]))?;
    assert_eq!(rt; book.task_count(), 3);
    Ok(())
}
