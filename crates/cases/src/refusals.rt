// The numbers and the words of the refusals.
use book::refusal::Refusal;
use std::test::Fail;

#[test]
fn refusals_have_the_numbers_and_words_of_the_table(rt: HostRuntime) -> Result<(), Fail> {
    let table = [
        (Refusal::Cache, 1, "cache"),
        (Refusal::Number, 2, "number"),
        (Refusal::Period, 3, "period"),
        (Refusal::Deadline, 4, "deadline"),
        (Refusal::Class, 5, "class"),
        (Refusal::Time, 6, "time"),
        (Refusal::Rising, 7, "rising"),
        (Refusal::Taken, 8, "taken"),
        (Refusal::Full, 9, "full"),
        (Refusal::Unknown, 10, "unknown"),
        (Refusal::Cycle, 11, "cycle"),
        (Refusal::Empty, 12, "empty"),
        (Refusal::NoneFits, 13, "none fits"),
        (Refusal::Spent, 14, "spent"),
        (Refusal::List, 15, "list"),
        (Refusal::Overrun, 16, "overrun"),
        (Refusal::Late, 17, "late"),
        (Refusal::Overload, 18, "overload"),
        (Refusal::Short, 19, "short"),
        (Refusal::Version, 20, "version"),
        (Refusal::Cut, 21, "cut"),
        (Refusal::Length, 22, "length"),
        (Refusal::Order, 23, "order"),
        (Refusal::Charge, 24, "charge"),
        (Refusal::Margin, 25, "margin"),
    ];
    for (refusal, number, word) in table {
        assert_eq!(rt; refusal.number(), number);
        assert!(rt; refusal.word() == word);
        assert!(rt; refusal.to_string(rt.alloc())?.as_str() == word);
    }
    Ok(())
}
