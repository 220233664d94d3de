// Appending to a text. Not by `write!`: that gives a Result, and these calls cannot fail, since each says the room that it needs.
// Numbers are widened by `as`, as in `describe`.
ghost use Rattle.std.specs.Prelude.{◌≡◌, ◌+◌, ◌*◌, ◌≤◌, [], ◌++◌, length, decimal};
ghost use Rattle.report.specs.Held.{HasRoom, text_in};
ghost use Rattle.report.specs.Texts.{spaced};

use crate::text::{LONGEST_TEXT, Text};
use itoa::Buffer;

impl Text {
    /// The text of no byte.
    pub(crate) fn empty() -> Text
        ensures { result.count ≡ 0 }
    {
        Text {
            bytes: [0; LONGEST_TEXT],
            count: 0,
        }
    }

    /// The bytes of the text.
    pub fn as_bytes(&self) -> &[u8]
        ensures { result.now ≡ text_in self.now }
    {
        &self.bytes[0..self.count]
    }

    /// Appends the bytes.
    pub(crate) fn put(&mut self, bytes: &[u8])
        requires { HasRoom self.old (length bytes.now) }
        ensures after { text_in self.new ≡ text_in self.old ++ bytes.now }
        ensures count { self.new.count ≡ self.old.count + length bytes.now }
    {
        let behind = self.count + bytes.len();
        self.bytes[self.count..behind].copy_from_slice(bytes);
        self.count = behind;
    }

    /// Appends the number in decimal.
    pub(crate) fn put_number(&mut self, n: u64)
        requires { HasRoom self.old (length (decimal n)) }
        ensures after { text_in self.new ≡ text_in self.old ++ decimal n }
        ensures count { self.new.count ≡ self.old.count + length (decimal n) }
    {
        self.put(Buffer::new().format(n).as_bytes());
    }

    /// Appends a label and a number behind it.
    pub(crate) fn put_labelled(&mut self, label: &[u8], n: u64)
        requires { HasRoom self.old (length label.now + 20) }
        ensures after { text_in self.new ≡ text_in self.old ++ (label.now ++ decimal n) }
        ensures few { self.new.count ≤ self.old.count + (length label.now + 20) }
    {
        self.put(label);
        self.put_number(n);
    }

    /// Appends the times with a space before each.
    pub(crate) fn put_times(&mut self, times: &[u32])
        requires { HasRoom self.old (21 * length times.now) }
        ensures after { text_in self.new ≡ text_in self.old ++ spaced times.now }
        ensures few { self.new.count ≤ self.old.count + 21 * length times.now }
    {
        for time in times {
            self.put_labelled(b" ", *time as u64);
        }
    }
}
