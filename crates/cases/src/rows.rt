// Rows and tasks made apart from a book.
use book::new_task::NewTask;
use book::refusal::Refusal;
use book::row::Row;
use book::task::Task;
use std::test::Fail;

#[test]
fn a_row_is_made_of_times_that_keep_its_rules(rt: HostRuntime) -> Result<(), Fail> {
    let times = [1_000_000, 7, 7, 1];
    let row = Row::try_from(times.as_slice())?;
    assert!(rt; row.times() == times.as_slice());
    let none: [u32; 0] = [];
    assert_eq!(rt; Row::try_from(none.as_slice()).err(), Some(Refusal::Class));
    assert_eq!(rt;
        Row::try_from([1; 12].as_slice()).err(),
        Some(Refusal::Class)
    );
    assert_eq!(rt; Row::try_from([1; 11].as_slice()).err(), None);
    assert_eq!(rt;
        Row::try_from([1_000_001, 0].as_slice()).err(),
        Some(Refusal::Time)
    );
    assert_eq!(rt;
        Row::try_from([1, 2].as_slice()).err(),
        Some(Refusal::Rising)
    );
    Ok(())
}

#[test]
fn a_task_is_made_of_parts_that_keep_its_rules(rt: HostRuntime) -> Result<(), Fail> {
    let times = [4, 3];
    let sound = NewTask {
        number: 255,
        period: 1_000_000,
        deadline: 1_000_000,
        times: &times,
    };
    let task = Task::try_from(sound)?;
    assert!(rt; task.number == 255);
    assert!(rt; task.period == 1_000_000);
    assert!(rt; task.deadline == 1_000_000);
    assert!(rt; task.row.times() == times.as_slice());
    let rising = [3, 4];
    for (number, period, deadline, by) in [
        (0, 0, 0, Refusal::Number),
        (1, 0, 0, Refusal::Period),
        (1, 1_000_001, 0, Refusal::Period),
        (1, 10, 0, Refusal::Deadline),
        (1, 10, 11, Refusal::Deadline),
        (1, 10, 10, Refusal::Rising),
    ] {
        let new = NewTask {
            number,
            period,
            deadline,
            times: &rising,
        };
        assert_eq!(rt; Task::try_from(new).err(), Some(by));
    }
    Ok(())
}
