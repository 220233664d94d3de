// Loading and writing sheets.
use crate::common;
use crate::common::{new_task, two_tasks};
use book::book::Book;
use book::refusal::Refusal;
use sheet::fault::Fault;
use sheet::load::load;
use sheet::write::write;
use std::test::Fail;

/// The sheet of the two-task book.
const TWO_TASKS: [u8; 51] = [
    1, 0, 4, 21, 1, 0, 0, 0, 10, 0, 0, 0, 5, 0, 0, 0, 4, 0, 0, 0, 3, 0, 0, 0, 2, 25, 2, 0, 0, 0,
    20, 0, 0, 0, 20, 0, 0, 0, 12, 0, 0, 0, 9, 0, 0, 0, 9, 0, 0, 0, 5,
];

/// The sheet is refused by this at this place, and the whole book is as it was.
fn refused(sheet: &[u8], refusal: Refusal, place: usize) -> Result<(), Fail> {
    let before = two_tasks()?;
    let mut book = before;
    let answer = load(&mut book, sheet);
    common::refused(answer, Fault { refusal, place }, &before, &book)
}

#[test]
fn the_two_task_sheet_loads_and_is_written_back(rt: HostRuntime) -> Result<(), Fail> {
    let mut book = Book::new();
    assert!(rt; load(&mut book, &TWO_TASKS).is_ok());
    assert!(rt; book == two_tasks()?);
    let mut buffer = [170u8; 53];
    assert_eq!(rt; write(&book, &mut buffer), Ok(51));
    assert!(rt; &buffer[0..51] == &TWO_TASKS[0..51]);
    assert_eq!(rt; buffer[51], 170);
    assert_eq!(rt; buffer[52], 170);
    Ok(())
}

#[test]
fn a_short_buffer_is_left_as_it_was(rt: HostRuntime) -> Result<(), Fail> {
    let book = two_tasks()?;
    let mut buffer = [170u8; 50];
    assert_eq!(rt; write(&book, &mut buffer), Err(Refusal::Short));
    assert!(rt; buffer == [170u8; 50]);
    Ok(())
}

#[test]
fn the_shortest_sheet_is_an_empty_book(rt: HostRuntime) -> Result<(), Fail> {
    let mut book = two_tasks()?;
    assert!(rt; load(&mut book, &[1, 0, 1]).is_ok());
    assert!(rt; book == Book::new());
    Ok(())
}

#[test]
fn heads_are_refused_at_0() -> Result<(), Fail> {
    // the version comes before the length, the size before any record
    let cases: [(&[u8], Refusal); 8] = [
        (&[], Refusal::Cut),
        (&[2], Refusal::Version),
        (&[1], Refusal::Cut),
        (&[2, 0], Refusal::Version),
        (&[1, 0], Refusal::Cut),
        (&[1, 0, 0], Refusal::Cache),
        (&[1, 4, 1], Refusal::Cache),
        (&[1, 0, 0, 99], Refusal::Cache),
    ];
    for (sheet, by) in cases {
        refused(sheet, by, 0)?;
    }
    Ok(())
}

#[test]
fn a_cut_record_is_refused_at_its_length_byte() -> Result<(), Fail> {
    refused(&TWO_TASKS[0..50], Refusal::Cut, 25)?;
    refused(&TWO_TASKS[0..26], Refusal::Cut, 25)
}

#[test]
fn records_are_refused_at_their_length_byte(rt: HostRuntime) -> Result<(), Fail> {
    // the place of a byte, its new value, and the refusal of the second record
    let cases = [
        (25, 9, Refusal::Length),
        (25, 57, Refusal::Length),
        (25, 26, Refusal::Length),
        (25, 29, Refusal::Cut),
        (26, 0, Refusal::Number),
        (30, 0, Refusal::Period),
        (34, 21, Refusal::Deadline),
        (38, 0, Refusal::Time),
        (42, 13, Refusal::Rising),
        (26, 1, Refusal::Order),
        (4, 3, Refusal::Order),
    ];
    for (index, byte, by) in cases {
        let mut sheet = TWO_TASKS;
        assert!(rt; index < 51);
        sheet[index] = byte;
        refused(&sheet, by, 25)?;
    }
    Ok(())
}

#[test]
fn the_hyperperiod_is_read_on_the_earlier_records(rt: HostRuntime) -> Result<(), Fail> {
    let mut book = Book::new();
    book.enter(new_task(5, 100_000, 1, &[1]))?;
    book.enter(new_task(6, 99_999, 1, &[1]))?;
    let mut sheet = [0u8; 31];
    assert_eq!(rt; write(&book, &mut sheet), Ok(31));
    // 99,999 is 0x1869f, and 100,001 is 0x186a1
    sheet[22] = 161;
    refused(&sheet, Refusal::Cycle, 17)
}

/// Puts the record before the last one over the last, which is of the same size.
fn repeat_record(sheet: &mut [u8], size: usize) -> Result<(), Fail> {
    let count = sheet.len();
    if size > 54 || count < 108 {
        return Err(Fail::new("the sheet has no two records of this size"));
    }
    sheet.copy_within(count - 2 * size..count - size, count - size);
    Ok(())
}

/// A book of sixteen tasks with eleven times each.
fn largest() -> Result<Book, Fail> {
    let mut book = Book::new();
    book.make(1024)?;
    for number in 240..=255 {
        book.enter(new_task(number, 1000, 1000, &[11, 10, 9, 8, 7, 6, 5, 4, 3, 2, 1]))?;
    }
    Ok(book)
}

#[test]
fn the_largest_sheet_goes_round(rt: HostRuntime) -> Result<(), Fail> {
    let book = largest()?;
    let mut sheet = [0u8; 867];
    assert_eq!(rt; write(&book, &mut sheet), Ok(867));
    let mut again = Book::new();
    assert!(rt; load(&mut again, &sheet).is_ok());
    assert!(rt; again == book);
    Ok(())
}

#[test]
fn the_number_of_a_seventeenth_record_comes_first(rt: HostRuntime) -> Result<(), Fail> {
    let mut sheet = [0u8; 921];
    assert_eq!(rt; write(&largest()?, &mut sheet), Ok(867));
    repeat_record(&mut sheet, 54)?;
    refused(&sheet, Refusal::Order, 867)?;
    sheet[868] = 0;
    refused(&sheet, Refusal::Number, 867)
}

#[test]
fn a_seventeenth_record_is_refused(rt: HostRuntime) -> Result<(), Fail> {
    let mut book = Book::new();
    for number in 1..17u8 {
        book.enter(new_task(number, 100, 50, &[3]))?;
    }
    let mut sheet = [0u8; 241];
    assert_eq!(rt; write(&book, &mut sheet), Ok(227));
    repeat_record(&mut sheet, 14)?;
    sheet[228] = 17;
    refused(&sheet, Refusal::Full, 227)
}
