// A refusal's number and word.
ghost use Rattle.std.specs.Prelude.{◌≡◌, Some};
ghost use Rattle.book.specs.Refusals.{refusal_number, refusal_word};

use crate::refusal::Refusal;
use std::error::Error;
use std::fmt;

impl Refusal {
    /// The number that the refusal is known by, 1 to 25.
    pub fn number(self) -> u8
        ensures { result ≡ refusal_number self }
    {
        self as u8
    }

    /// The word that the refusal is printed with.
    pub fn word(self) -> &'static str
        ensures { result.now ≡ refusal_word self }
    {
        match self {
            Refusal::Cache => "cache",
            Refusal::Number => "number",
            Refusal::Period => "period",
            Refusal::Deadline => "deadline",
            Refusal::Class => "class",
            Refusal::Time => "time",
            Refusal::Rising => "rising",
            Refusal::Taken => "taken",
            Refusal::Full => "full",
            Refusal::Unknown => "unknown",
            Refusal::Cycle => "cycle",
            Refusal::Empty => "empty",
            Refusal::NoneFits => "none fits",
            Refusal::Spent => "spent",
            Refusal::List => "list",
            Refusal::Overrun => "overrun",
            Refusal::Late => "late",
            Refusal::Overload => "overload",
            Refusal::Short => "short",
            Refusal::Version => "version",
            Refusal::Cut => "cut",
            Refusal::Length => "length",
            Refusal::Order => "order",
            Refusal::Charge => "charge",
            Refusal::Margin => "margin",
        }
    }
}

impl fmt::Display for Refusal {
    ghost output = { λ refusal. Some (refusal_word refusal) };

    fn fmt<W: fmt::Write>(&self, f: &mut fmt::Formatter<W>) -> fmt::Result {
        f.write_str(self.word())
    }
}

impl Error for Refusal {}
