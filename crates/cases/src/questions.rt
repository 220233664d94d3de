// Both tests and the search, asked about times whose answers are worked out by hand.
use crate::common::new_task;
use book::book::Book;
use schedule::busy_period::BusyPeriod;
use schedule::demand::least_solution;
use schedule::earliest_deadline::EarliestDeadline;
use schedule::fixed_priority::FixedPriority;
use schedule::test::Test;
use schedule::timed_tasks::TimedTasks;
use schedule::timing_test::TimingTest;
use std::test::Fail;

/// A book of tasks 1, 2 and so on, each a period and a deadline.
pub(crate) fn book_of(tasks: &[(u32, u32)]) -> Result<Book, Fail> {
    let mut book = Book::new();
    for (number, (period, deadline)) in (1u8..).zip(tasks) {
        book.enter(new_task(number, *period, *deadline, &[1]))?;
    }
    Ok(book)
}

/// Whether fixed priority and earliest deadline pass the times.
fn asked(book: &Book, times: &[u32]) -> (bool, bool) {
    (
        FixedPriority.ask(book, times),
        EarliestDeadline.ask(book, times),
    )
}

/// The end of the synchronous busy period of the book's tasks at the times, up to the limit.
fn busy_period(book: &Book, times: &[u32], limit: u64) -> Option<u64> {
    least_solution(&BusyPeriod, TimedTasks::of(book, times), limit)
}

#[test]
fn one_task_responds_in_its_time_up_to_the_deadline(rt: HostRuntime) -> Result<(), Fail> {
    let book = book_of(&[(10, 4)])?;
    // the time, whether it passes, and the response
    for (time, passes, response) in [(1, true, Some(1)), (4, true, Some(4)), (5, false, None)] {
        assert!(rt; asked(&book, &[time]) == (passes, passes));
        assert_eq!(rt; FixedPriority.tell(&book, &[time], 0), response);
        assert_eq!(rt; FixedPriority.tell(&book, &[time], 1), None);
    }
    Ok(())
}

#[test]
fn a_release_at_the_end_of_a_response_does_not_count(rt: HostRuntime) -> Result<(), Fail> {
    // At t = 20 the first task has released 2 jobs, not 3: 12 + 2 * 4 = 20.
    let book = book_of(&[(10, 5), (20, 20)])?;
    assert!(rt; asked(&book, &[4, 12]) == (true, true));
    assert_eq!(rt; FixedPriority.tell(&book, &[4, 12], 0), Some(4));
    assert_eq!(rt; FixedPriority.tell(&book, &[4, 12], 1), Some(20));
    let tighter = book_of(&[(10, 5), (20, 19)])?;
    assert!(rt; !FixedPriority.ask(&tighter, &[4, 12]));
    assert_eq!(rt; FixedPriority.tell(&tighter, &[4, 12], 0), None);
    Ok(())
}

#[test]
fn earliest_deadline_passes_what_fixed_priority_does_not(rt: HostRuntime) -> Result<(), Fail> {
    // Fixed: 4 + 2 = 6, then 4 + 2 * 2 = 8 > 7. Earliest: 2 at 5, 6 at 7, 8 at 10, 14 of 15 at 15; 34 of 35 in all.
    let book = book_of(&[(5, 5), (7, 7)])?;
    assert!(rt; asked(&book, &[2, 4]) == (false, true));
    assert!(rt; asked(&book, &[2, 5]) == (false, false));
    Ok(())
}

#[test]
fn work_that_is_due_together_is_found(rt: HostRuntime) -> Result<(), Fail> {
    // By 3, one job of 2 of each task is due: 4.
    let book = book_of(&[(10, 3), (10, 3)])?;
    assert!(rt; asked(&book, &[2, 2]) == (false, false));
    assert!(rt; asked(&book, &[2, 1]) == (true, true));
    Ok(())
}

#[test]
fn an_overload_past_the_largest_period_is_found(rt: HostRuntime) -> Result<(), Fail> {
    // By 48, 4 jobs of 6 and 5 of 5 are due: 49. Nowhere before is more due than there are ticks.
    let book = book_of(&[(12, 11), (10, 8)])?;
    assert!(rt; !EarliestDeadline.ask(&book, &[6, 5]));
    assert!(rt; EarliestDeadline.ask(&book, &[5, 5]));
    assert!(rt; EarliestDeadline.ask(&book, &[6, 4]));
    // By 109, 10 jobs of 5, 14 of 3 and 9 of 2 are due: 110.
    let later = book_of(&[(11, 10), (8, 5), (12, 12)])?;
    assert!(rt; !EarliestDeadline.ask(&later, &[5, 3, 2]));
    assert!(rt; EarliestDeadline.ask(&later, &[5, 3, 1]));
    Ok(())
}

#[test]
fn lists_of_another_shape_fail(rt: HostRuntime) -> Result<(), Fail> {
    let book = book_of(&[(10, 10), (20, 20)])?;
    assert!(rt; asked(&book, &[1, 1]) == (true, true));
    let empty: [u32; 0] = [];
    assert!(rt; asked(&book, &empty) == (false, false));
    assert!(rt; asked(&book, &[1]) == (false, false));
    assert!(rt; asked(&book, &[1, 1, 1]) == (false, false));
    for time in [0, 1_000_001, u32::MAX] {
        assert!(rt; asked(&book, &[1, time]) == (false, false));
        assert!(rt; asked(&book, &[time, 1]) == (false, false));
        assert_eq!(rt; FixedPriority.tell(&book, &[time, 1], 1), None);
    }
    Ok(())
}

#[test]
fn the_empty_list_passes_the_empty_book(rt: HostRuntime) {
    let book = Book::new();
    let empty: [u32; 0] = [];
    assert!(rt; asked(&book, &empty) == (true, true));
    assert_eq!(rt; FixedPriority.tell(&book, &empty, 0), None);
    assert!(rt; asked(&book, &[1]) == (false, false));
}

#[test]
fn hyperperiods_at_the_limit_are_decided(rt: HostRuntime) -> Result<(), Fail> {
    // A hyperperiod of 9,999,900,000 ticks.
    let book = book_of(&[(100_000, 100_000), (99_999, 99_999)])?;
    assert!(rt; asked(&book, &[50_000, 49_999]) == (true, true));
    assert_eq!(rt;
        FixedPriority.tell(&book, &[50_000, 49_999], 1),
        Some(99_999)
    );
    // 1/2 and 50,000/99,999 of the processor are more than all of it.
    assert!(rt; asked(&book, &[50_000, 50_000]) == (false, false));
    // 99,999 and 1 in 99,999 ticks are one too many.
    assert!(rt; asked(&book, &[99_999, 1]) == (false, false));
    Ok(())
}

#[test]
fn the_search_finds_the_least_solution_up_to_the_limit(rt: HostRuntime) -> Result<(), Fail> {
    let book = book_of(&[(10, 5), (20, 20)])?;
    // 4 + 5 = 9 ticks without a pause
    assert!(rt; busy_period(&book, &[4, 5], 9) == Some(9));
    assert!(rt; busy_period(&book, &[4, 5], u64::MAX) == Some(9));
    assert!(rt; busy_period(&book, &[4, 5], 8) == None);
    assert!(rt; busy_period(&book, &[4, 5], 0) == None);
    // more work than ticks, at any length: the demand outgrows every limit
    assert!(rt; busy_period(&book, &[u32::MAX, 5], u64::MAX) == None);
    let other = book_of(&[(5, 5), (7, 7)])?;
    assert!(rt; busy_period(&other, &[2, 4], 35) == Some(14));
    Ok(())
}

#[test]
fn the_busy_period_of_no_work_is_1(rt: HostRuntime) {
    let book = Book::new();
    let empty: [u32; 0] = [];
    assert!(rt; busy_period(&book, &empty, 5) == Some(1));
    assert!(rt; busy_period(&book, &empty, 1) == Some(1));
    assert!(rt; busy_period(&book, &empty, 0) == None);
}
