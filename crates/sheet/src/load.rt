// Loading a sheet.
ghost use Rattle.book.specs.Books.{holds};
ghost use Rattle.book.specs.Checks.{Did};
ghost use Rattle.sheet.specs.Decoding.{decode};
ghost use Rattle.sheet.specs.Writing.{LoadsItself, LoadsWritten};

use crate::fault::Fault;
use crate::read::read_sheet;
use book::book::Book;

/// Puts the book of the sheet in place of the whole book lent, or gives the first fault and leaves the book as it was.
pub fn load(book: &mut Book, sheet: &[u8]) -> Result<(), Fault>
    ensures answer { Did holds book.old book.new (decode sheet.now) result }
    ensures written { LoadsWritten sheet.now book.new result }
    ensures itself { LoadsItself sheet.now book.new }
{
    *book = read_sheet(sheet)?;
    Ok(())
}
