// Carrying out a call on the book.
use crate::answer::{Answer, ListAnswers};
use crate::call::Call;
use crate::failure::answer;
use crate::question::{ask, tell};
use arrayvec::ArrayVec;
use book::book::Book;
use book::limits::MOST_TASKS;
use book::refusal::Refusal;
use sheet::load::load;
use sheet::write::write;
use std::alloc::{AllocError, Global};

/// What each byte of a buffer holds before a write, to show which of them the write leaves alone.
const UNTOUCHED: u8 = 0xaa;

/// Carries out a call. Only a buffer to write into and the changes of a question take memory, so heap and book stay apart.
pub(crate) fn perform(heap: Global, book: &mut Book, call: &Call) -> Result<Answer, AllocError> {
    let answer = match call {
        Call::Make { size } => edited(book.make(*size), book),
        Call::Enter(new) => edited(book.enter(new.new_task()), book),
        Call::Append(new) => edited(book.append(new.new_task()), book),
        Call::Amend {
            number,
            class,
            time,
        } => edited(book.amend(*number, *class, *time), book),
        Call::Withdraw { number } => edited(book.withdraw(*number), book),
        Call::Load { sheet } => Answer::Load {
            result: load(book, sheet.as_slice()),
            book: *book,
        },
        Call::Write { length } => write_sheet(heap, book, *length)?,
        Call::Classes { list } => Answer::Classes(list_answers(book, list.as_slice())),
        Call::Ask { test, question } => Answer::Ask(answer(ask(heap, book, *test, question))?),
        Call::Tell { place, question } => Answer::Tell(answer(tell(heap, book, *place, question))?),
    };
    Ok(answer)
}

/// The answer to an edit, with the book that it left.
fn edited(answer: Result<(), Refusal>, book: &Book) -> Answer {
    Answer::Edit {
        result: answer,
        book: *book,
    }
}

/// Writes the sheet into a new buffer; the answer shows all of it.
fn write_sheet(heap: Global, book: &Book, length: u16) -> Result<Answer, AllocError> {
    let mut buffer = vec![in heap; UNTOUCHED; usize::from(length)]?;
    let result = write(book, buffer.as_mut_slice());
    Ok(Answer::Write { result, buffer })
}

/// Makes every call on a class list.
fn list_answers(book: &Book, classes: &[u8]) -> ListAnswers {
    ListAnswers {
        list: book.check_list(classes),
        sizes: front(|buffer| book.list_sizes(classes, buffer)),
        fit: book.check_fit(classes),
        times: front(|buffer| book.list_times(classes, buffer)),
        work: book.list_work(classes),
    }
}

/// What a call puts into the front of a buffer, which has a place for each task that a book may have.
fn front<T: Copy + Default, F: FnOnce(&mut [T]) -> Result<usize, Refusal>>(
    put: F,
) -> Result<ArrayVec<T, MOST_TASKS>, Refusal>
    requires { F.IsAlwaysCallable put }
{
    let mut buffer = ArrayVec::from([T::default(); MOST_TASKS]);
    let count = put(buffer.as_mut_slice())?;
    buffer.truncate(count);
    Ok(buffer)
}
