// Reading a sheet into a book.
ghost use Rattle.sheet.specs.Reading.{RecordLoaded, SheetRead};

use crate::fault::Fault;
use crate::reader::Reader;
use book::book::Book;
use book::limits::MOST_TIMES;
use book::new_task::NewTask;

/// Puts the next record into the book, behind its tasks.
fn load_record(book: &mut Book, reader: &mut Reader<'_>) -> Result<(), Fault>
    ensures { RecordLoaded book.old book.new reader.old reader.new result }
{
    let count = reader.time_count()?;
    let number = reader.byte()?;
    let period = reader.number()?;
    let deadline = reader.number()?;
    let mut slots = [0; MOST_TIMES];
    let times = &mut slots[..count];
    reader.times(times)?;
    reader.placed(book.append(NewTask {
        number,
        period,
        deadline,
        times,
    }))
}

/// The book of a whole sheet.
pub(crate) fn read_sheet(sheet: &[u8]) -> Result<Book, Fault>
    ensures { SheetRead sheet.now result }
{
    let mut reader = Reader {
        bytes: sheet,
        place: 0,
    };
    let size = reader.cache_size()?;
    let mut book = Book::new();
    reader.placed(book.make(size))?;
    while !reader.bytes.is_empty() {
        reader.place = sheet.len() - reader.bytes.len();
        load_record(&mut book, &mut reader)?;
    }
    Ok(book)
}
