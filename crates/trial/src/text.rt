// The answers in words. Each part of an answer line has a function that writes it.
use crate::answer::{Answer, ListAnswers};
use arrayvec::ArrayVec;
use book::book::Book;
use book::limits::MOST_TASKS;
use book::refusal::Refusal;
use sheet::fault::Fault;
use std::fmt;

impl fmt::Display for Answer {
    fn fmt<W: fmt::Write>(&self, f: &mut fmt::Formatter<W>) -> fmt::Result {
        match self {
            Answer::Edit { result, book } => {
                outcome(f, result, done)?;
                state(f, book)
            }
            Answer::Load { result, book } => {
                loaded(f, *result)?;
                state(f, book)
            }
            Answer::Write { result, buffer } => {
                outcome(f, result, |f, length| write!(f, "wrote {length}"))?;
                hex(f, buffer.as_slice())
            }
            Answer::Classes(answers) => classes(f, answers),
            Answer::Ask(result) => outcome(f, result, |f, passes| {
                f.write_str(if *passes { "yes" } else { "no" })
            }),
            Answer::Tell(result) => outcome(f, result, |f, told| match told {
                Some(time) => write!(f, "told {time}"),
                None => f.write_str("none"),
            }),
        }
    }
}

/// The result of a call: its value, as `put` writes it, or its refusal.
fn outcome<W: fmt::Write, T, P: FnOnce(&mut fmt::Formatter<W>, &T) -> fmt::Result>(
    f: &mut fmt::Formatter<W>,
    answer: &Result<T, Refusal>,
    put: P,
) -> fmt::Result
    requires { P.IsAlwaysCallable put }
{
    match answer {
        Ok(value) => put(f, value),
        Err(refusal) => refused(f, *refusal),
    }
}

/// A refusal, by its number.
fn refused<W: fmt::Write>(f: &mut fmt::Formatter<W>, refusal: Refusal) -> fmt::Result {
    let number = refusal.number();
    write!(f, "refused {number}")
}

/// What a call gives that gives no value.
fn done<W: fmt::Write>(f: &mut fmt::Formatter<W>, _: &()) -> fmt::Result {
    f.write_str("ok")
}

/// The result of a load; a fault has its place on the sheet.
fn loaded<W: fmt::Write>(f: &mut fmt::Formatter<W>, answer: Result<(), Fault>) -> fmt::Result {
    outcome(f, &answer.map_err(|fault| fault.refusal), done)?;
    if let Err(fault) = answer {
        write!(f, " at {}", fault.place)?;
    }
    Ok(())
}

/// The whole book behind the result of an edit: its size, count and hyperperiod, and then the fields of each task.
fn state<W: fmt::Write>(f: &mut fmt::Formatter<W>, book: &Book) -> fmt::Result {
    let size = book.cache_size();
    let count = book.task_count();
    let hyperperiod = book.hyperperiod();
    write!(f, "; {size} {count} {hyperperiod}")?;
    for task in book.tasks() {
        write!(f, " | {} {} {}", task.number, task.period, task.deadline)?;
        numbers(f, task.row.times())?;
    }
    Ok(())
}

/// The whole buffer behind the result of a write; no space ends the line where it is empty.
fn hex<W: fmt::Write>(f: &mut fmt::Formatter<W>, buffer: &[u8]) -> fmt::Result {
    f.write_str(":")?;
    if !buffer.is_empty() {
        f.write_str(" ")?;
    }
    for byte in buffer {
        write!(f, "{byte:02x}")?;
    }
    Ok(())
}

/// The results of the calls on a class list, each behind its name.
fn classes<W: fmt::Write>(f: &mut fmt::Formatter<W>, answers: &ListAnswers) -> fmt::Result {
    f.write_str("list ")?;
    outcome(f, &answers.list, done)?;
    f.write_str("; sizes")?;
    list(f, &answers.sizes)?;
    f.write_str("; fit ")?;
    outcome(f, &answers.fit, done)?;
    f.write_str("; times")?;
    list(f, &answers.times)?;
    f.write_str("; work ")?;
    outcome(f, &answers.work, |f, work| write!(f, "{work}"))
}

/// The list that a call gives, or its refusal, behind a space.
fn list<W: fmt::Write, T: fmt::Display>(
    f: &mut fmt::Formatter<W>,
    answer: &Result<ArrayVec<T, MOST_TASKS>, Refusal>,
) -> fmt::Result {
    if answer.is_err() {
        f.write_str(" ")?;
    }
    outcome(f, answer, |f, list| numbers(f, list.as_slice()))
}

/// Numbers, each behind a space.
fn numbers<W: fmt::Write, T: fmt::Display>(
    f: &mut fmt::Formatter<W>,
    numbers: &[T],
) -> fmt::Result {
    for number in numbers {
        write!(f, " {number}")?;
    }
    Ok(())
}
