// The answers to the calls of a script.
use arrayvec::ArrayVec;
use book::book::Book;
use book::limits::MOST_TASKS;
use book::refusal::Refusal;
use sheet::fault::Fault;

/// What each of the calls on one class list answers.
#[derive(Drop)]
pub struct ListAnswers {
    pub list: Result<(), Refusal>,
    pub sizes: Result<ArrayVec<u16, MOST_TASKS>, Refusal>,
    pub fit: Result<(), Refusal>,
    pub times: Result<ArrayVec<u32, MOST_TASKS>, Refusal>,
    pub work: Result<u64, Refusal>,
}

/// The answer to one call of a script. Where the call may change the book, it has the whole book behind the call, so that a refusal shows that it changed nothing.
#[derive(Drop)]
pub enum Answer {
    Edit {
        result: Result<(), Refusal>,
        book: Book,
    },
    Load {
        result: Result<(), Fault>,
        book: Book,
    },
    Write {
        result: Result<usize, Refusal>,
        buffer: Vec<u8>,
    },
    Classes(ListAnswers),
    Ask(Result<bool, Refusal>),
    Tell(Result<Option<u32>, Refusal>),
}
