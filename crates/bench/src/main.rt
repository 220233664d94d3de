// Bench: asks the schedulability tests about lists of times, all of them in every round, and prints how many questions that were
// and how many were answered by yes. It looks at no clock: tools/bench/run, whose head lists the lines of the input, times it.
#![tactic(auto)]

mod questions;

use crate::questions::Questions;
use anyhow::anyhow;
use schedule::earliest_deadline::EarliestDeadline;
use schedule::fixed_priority::FixedPriority;
use schedule::test::Test;
use std::io::{BufRead, BufReader};
use std::str::from_utf8;

/// Asks the test in all rounds, and prints the counts.
fn ask<T: Test>(
    rt: &HostRuntime,
    questions: &Questions,
    test: &T,
    rounds: u64,
) -> anyhow::Result<()> {
    let asked = questions.count().wrapping_mul(rounds);
    let yes = questions.ask(test, rounds);
    println!(rt; "asked {asked}, yes {yes}")?;
    Ok(())
}

/// Carries out one line of the input.
fn perform(rt: &HostRuntime, questions: &mut Questions, line: &[u8]) -> anyhow::Result<()> {
    let words: Vec<&str> = from_utf8(line)?.split_whitespace().collect(rt.alloc())?;
    match words.as_slice() {
        ["task", number, period, deadline] => {
            questions.enter(number.parse()?, period.parse()?, deadline.parse()?)
        }
        ["list", times @ ..] => questions.add(times),
        ["fixed", rounds] => ask(rt, questions, &FixedPriority, rounds.parse()?),
        ["earliest", rounds] => ask(rt, questions, &EarliestDeadline, rounds.parse()?),
        _ => Err(anyhow!("a line of no known form")),
    }
}

/// Carries out the input.
fn run(rt: &HostRuntime) -> anyhow::Result<()> {
    let heap = rt.alloc();
    let mut questions = Questions::new(heap);
    for line in BufReader::new(heap, rt.stdin())?.split(heap, b'\n') {
        perform(rt, &mut questions, line?.as_slice())?;
    }
    Ok(())
}

fn main(rt: HostRuntime) -> anyhow::Result<()> {
    run(&rt)
}
