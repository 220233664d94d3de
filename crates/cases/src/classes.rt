// Class sizes and class lists.
use crate::common::{new_task, two_tasks};
use book::book::Book;
use book::class::class_size;
use book::refusal::Refusal;
use std::test::Fail;

#[test]
fn class_sizes_are_those_of_the_table(rt: HostRuntime) {
    let sizes = [0u16, 1, 2, 4, 8, 16, 32, 64, 128, 256, 512];
    for (class, size) in (0u8..).zip(sizes) {
        assert_eq!(rt; class_size(class), Some(size));
    }
    assert_eq!(rt; class_size(11), None);
    assert_eq!(rt; class_size(255), None);
}

#[test]
fn lists_of_the_two_task_book(rt: HostRuntime) -> Result<(), Fail> {
    let book = two_tasks()?;
    book.check_list(&[2, 3])?;
    assert_eq!(rt; book.check_list(&[2]), Err(Refusal::List));
    assert_eq!(rt; book.check_list(&[2, 3, 0]), Err(Refusal::List));
    assert_eq!(rt; book.check_list(&[3, 3]), Err(Refusal::List));
    // 0 + 4 sets fit a cache of 4, and 2 + 4 do not
    book.check_fit(&[0, 3])?;
    assert_eq!(rt; book.check_fit(&[2, 3]), Err(Refusal::Overrun));
    assert_eq!(rt; book.check_fit(&[0, 4]), Err(Refusal::List));
    // 20/10 * 4 + 20/20 * 5, and 20/10 * 2 + 20/20 * 9
    assert_eq!(rt; book.list_work(&[0, 3]), Ok(13));
    assert_eq!(rt; book.list_work(&[2, 1]), Ok(13));
    assert_eq!(rt; book.list_work(&[]), Err(Refusal::List));
    Ok(())
}

#[test]
fn sizes_go_to_the_front_of_a_buffer(rt: HostRuntime) -> Result<(), Fail> {
    let book = two_tasks()?;
    let mut sizes = [7u16; 3];
    assert_eq!(rt; book.list_sizes(&[2, 3], &mut sizes), Ok(2));
    assert_eq!(rt; sizes, [2, 4, 7]);
    assert_eq!(rt; book.list_sizes(&[0], &mut sizes), Err(Refusal::List));
    let mut short = [7u16; 1];
    assert_eq!(rt; book.list_sizes(&[0, 0], &mut short), Err(Refusal::Short));
    assert_eq!(rt; short, [7]);
    Ok(())
}

#[test]
fn the_largest_class_has_512_sets(rt: HostRuntime) -> Result<(), Fail> {
    let mut book = Book::new();
    book.enter(new_task(1, 100, 50, &[1; 11]))?;
    let mut sizes = [7u16; 2];
    assert_eq!(rt; book.list_sizes(&[10], &mut sizes), Ok(1));
    assert_eq!(rt; sizes, [512, 7]);
    Ok(())
}

#[test]
fn times_go_to_the_front_of_a_buffer(rt: HostRuntime) -> Result<(), Fail> {
    let book = two_tasks()?;
    let mut times = [7u32; 3];
    assert_eq!(rt; book.list_times(&[2, 3], &mut times), Ok(2));
    assert_eq!(rt; times, [2, 5, 7]);
    assert_eq!(rt; book.list_times(&[0, 9], &mut times), Err(Refusal::List));
    assert_eq!(rt; times, [2, 5, 7]);
    let mut short = [7u32; 1];
    assert_eq!(rt; book.list_times(&[0, 0], &mut short), Err(Refusal::Short));
    assert_eq!(rt; short, [7]);
    Ok(())
}

#[test]
fn an_empty_book_has_the_empty_list(rt: HostRuntime) -> Result<(), Fail> {
    let book = Book::new();
    book.check_fit(&[])?;
    assert_eq!(rt; book.list_work(&[]), Ok(0));
    assert_eq!(rt; book.check_list(&[0]), Err(Refusal::List));
    Ok(())
}
