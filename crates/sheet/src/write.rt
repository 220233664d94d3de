// Writing a book's sheet.
ghost use Rattle.std.specs.Prelude.{◌≡◌, ◌≤◌, [], ◌∷◌, length, Ok};
ghost use Rattle.book.specs.Books.{holds};
ghost use Rattle.book.specs.Checks.{Put, judged, short_check};
ghost use Rattle.book.specs.Held.{record_of};
ghost use Rattle.sheet.specs.Decoding.{decode};
ghost use Rattle.sheet.specs.Encoding.{encode, record_bytes};

use crate::writer::Writer;
use book::book::Book;
use book::refusal::Refusal;
use book::task::Task;

/// The longest sheet of a book: a head of 3 bytes, and sixteen records of 54.
pub const LONGEST_SHEET: usize = 867;

/// How long the record of a task is, with its length byte.
fn record_length(task: &Task) -> usize
    ensures { result ≡ length (record_bytes (record_of task.now)) }
{
    10 + 4 * task.row.times().len()
}

/// How long the sheet of a book is.
fn sheet_length(book: &Book) -> usize
    ensures value { result ≡ length (encode (holds book.now)) }
    ensures bound { result ≤ LONGEST_SHEET }
{
    3 + book.tasks().iter().map(record_length).sum::<usize>()
}

/// Puts the book's sheet into the front of the buffer and returns its length; what lies behind it stays.
pub fn write(book: &Book, buffer: &mut [u8]) -> Result<usize, Refusal>
    ensures answer { Put buffer.old buffer.new
        (judged (short_check buffer.old (encode (holds book.now)) ∷ []) (encode (holds book.now))) result }
    ensures loads { decode (encode (holds book.now)) ≡ Ok (holds book.now) }
{
    if buffer.len() < sheet_length(book) {
        return Err(Refusal::Short);
    }
    let mut writer = Writer { buffer, at: 0 };
    writer.put(&[1]);
    writer.put(&book.cache_size().to_be_bytes());
    writer.put_records(book.tasks());
    Ok(writer.at)
}
