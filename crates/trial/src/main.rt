// Trial: carries out a script of calls on one book and prints an answer line for each. The head of tools/oracle.py, a model of the
// book that the answers are compared with, lists the calls. A line that is none of them is answered by `?`.
#![tactic(auto)]

mod answer;
mod call;
mod failure;
mod parse;
mod parse_question;
mod perform;
mod question;
mod text;

use crate::answer::Answer;
use crate::parse::{Unread, parse};
use crate::perform::perform;
use book::book::Book;
use std::alloc::{AllocError, Global};
use std::io::{BufRead, BufReader};

/// Carries out one line of the script. A line that is no call has no answer and changes nothing.
fn respond(heap: Global, book: &mut Book, line: &[u8]) -> Result<Option<Answer>, AllocError> {
    match parse(heap, line) {
        Ok(call) => Ok(Some(perform(heap, book, &call)?)),
        Err(Unread::Memory(error)) => Err(error),
        Err(_) => Ok(None),
    }
}

/// Carries out the script on standard input, from the built-in book on.
fn run(rt: &HostRuntime) -> anyhow::Result<()> {
    let heap = rt.alloc();
    let mut book = Book::new();
    // Lines are taken as bytes: one that is not even text is answered too.
    for line in BufReader::new(heap, rt.stdin())?.split(heap, b'\n') {
        let line = line?;
        match respond(heap, &mut book, line.as_slice())? {
            Some(answer) => rt.println(answer)?,
            None => rt.println("?")?,
        }
    }
    Ok(())
}

fn main(rt: HostRuntime) -> anyhow::Result<()> {
    run(&rt)
}
