// The refusals: every answer that a call can decline with. The whole table stands here, so that no number ever moves.

/// Why a call is declined, with the number that the refusal is known by.
#[derive(Clone, Copy, PartialEq, Eq, Debug)]
pub enum Refusal {
    Cache = 1,
    Number = 2,
    Period = 3,
    Deadline = 4,
    Class = 5,
    Time = 6,
    Rising = 7,
    Taken = 8,
    Full = 9,
    Unknown = 10,
    Cycle = 11,
    Empty = 12,
    NoneFits = 13,
    Spent = 14,
    List = 15,
    Overrun = 16,
    Late = 17,
    Overload = 18,
    Short = 19,
    Version = 20,
    Cut = 21,
    Length = 22,
    Order = 23,
    Charge = 24,
    Margin = 25,
}
