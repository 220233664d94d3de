// Making a row from its times, reading it, and amending one time of it.
ghost use Rattle.std.specs.Prelude.{◌≡◌, ◌≤◌, if◌then◌else◌, length, Some, None, nat_lt, slice_index, slice_set, unwrap_or};
ghost use Rattle.book.specs.Amending.{amend_checks};
ghost use Rattle.book.specs.Classes.{time_at};
ghost use Rattle.book.specs.Checks.{Did, Made, judged, outside};
ghost use Rattle.book.specs.Entering.{any_outside, rises, row_checks};
ghost use Rattle.book.specs.Held.{times_in};

use crate::limits::{LONGEST_TIME, MOST_TIMES};
use crate::refusal::Refusal;
use crate::row::Row;

/// Whether a time is not 1 to 1,000,000.
fn is_outside(time: u32) -> bool
    ensures { result ≡ outside 1 1000000 time }
{
    !(1..=LONGEST_TIME).contains(&time)
}

/// Whether some time is not 1 to 1,000,000.
fn any_outside(times: &[u32]) -> bool
    ensures { result ≡ any_outside times.now }
{
    times.iter().any(|time| is_outside(*time))
}

/// Whether some time exceeds the one before it.
fn rises(times: &[u32]) -> bool
    ensures { result ≡ rises times.now }
{
    !times.is_sorted_by(|before, time| before >= time)
}

/// The row of these times, if they keep the rules of a row.
impl TryFrom<&[u32]> for Row {
    type Error = Refusal;

    ghost try_from_gives = { λ times row. Made times_in (judged (row_checks times.now) times.now) row };

    fn try_from(times: &[u32]) -> Result<Row, Refusal> {
        let count = times.len();
        if !(1..=MOST_TIMES).contains(&count) {
            return Err(Refusal::Class);
        }
        if any_outside(times) {
            return Err(Refusal::Time);
        }
        if rises(times) {
            return Err(Refusal::Rising);
        }
        let mut slots = [1; MOST_TIMES];
        slots[..count].copy_from_slice(times);
        Ok(Row {
            times: slots,
            count,
        })
    }
}

impl Row {
    /// The row of one class with the time 1.
    pub(crate) fn blank() -> Row
        ensures count { result.count ≡ 1 }
        ensures time { slice_index result.times 0 ≡ 1 }
    {
        Row {
            times: [1; MOST_TIMES],
            count: 1,
        }
    }

    /// The times, from class 0 up.
    pub fn times(&self) -> &[u32]
        ensures { result.now ≡ times_in self.now }
    {
        &self.times[0..self.count]
    }

    /// The time in a partition of this class, if the row has one.
    pub(crate) fn time(&self, class: u8) -> Option<u32>
        ensures value { result
            ≡ (if nat_lt class (length (times_in self.now)) then Some (time_at (times_in self.now) class) else None) }
        ensures bound { unwrap_or result 0 ≤ 1000000 }
    {
        self.times().get(usize::from(class)).copied()
    }

    /// Puts `time` at `class`, if the row as it would be keeps the rules. The two come from `Book::amend` as they are: a struct of
    /// both would be made there only to be taken apart here.
    pub(crate) fn amend(&mut self, class: usize, time: u32) -> Result<(), Refusal>
        ensures { Did times_in self.old self.new
            (judged (amend_checks (times_in self.old) class time) (slice_set (times_in self.old) class time)) result }
    {
        if class >= self.count {
            return Err(Refusal::Class);
        }
        if is_outside(time) {
            return Err(Refusal::Time);
        }
        if class > 0 && time > self.times[class - 1] {
            return Err(Refusal::Rising);
        }
        if class + 1 < self.count && self.times[class + 1] > time {
            return Err(Refusal::Rising);
        }
        self.times[class] = time;
        Ok(())
    }
}
