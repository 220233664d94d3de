// The calls of a script.
use crate::question::{Question, TestName};
use book::new_task::NewTask;

/// A new task as a line gives it, under no rule yet. It owns its times, which a `NewTask` only borrows.
#[derive(Drop)]
pub struct Entry {
    pub number: u8,
    pub period: u32,
    pub deadline: u32,
    pub times: Vec<u32>,
}

impl Entry {
    /// The task as a book takes it.
    pub(crate) fn new_task(&self) -> NewTask<'_> {
        NewTask {
            number: self.number,
            period: self.period,
            deadline: self.deadline,
            times: self.times.as_slice(),
        }
    }
}

/// One line of a script.
#[derive(Drop)]
pub enum Call {
    Make { size: u16 },
    Enter(Entry),
    Append(Entry),
    Amend { number: u8, class: u8, time: u32 },
    Withdraw { number: u8 },
    Load { sheet: Vec<u8> },
    /// The length is that of the buffer. No sheet has more than 867 bytes, so 16 bits suffice, and no script takes much memory.
    Write { length: u16 },
    Classes { list: Vec<u8> },
    Ask { test: TestName, question: Question },
    Tell { place: u32, question: Question },
}
