// A sheet being written. Each method puts its part behind those put before.
ghost use Rattle.std.specs.Prelude.{map};
ghost use Rattle.book.specs.Held.{record_of};
ghost use Rattle.sheet.specs.Encoding.{record_bytes, records_bytes, time_bytes};
ghost use Rattle.sheet.specs.Putting.{HasRoom, Puts};

use book::task::Task;

/// A buffer, and the place that the next bytes are put at.
#[derive(Drop)]
pub(crate) struct Writer<'a> {
    pub(crate) buffer: &'a mut [u8],
    pub(crate) at: usize,
}

impl Writer<'_> {
    /// Puts the bytes. A text of `report` does the same to an array of its own. These three lines are no function that both call:
    /// it would take buffer and place apart again, which a writer keeps together.
    pub(crate) fn put(&mut self, bytes: &[u8])
        requires { HasRoom self.old bytes.now }
        ensures { Puts self.old self.new bytes.now }
    {
        let behind = self.at + bytes.len();
        self.buffer[self.at..behind].copy_from_slice(bytes);
        self.at = behind;
    }

    /// Puts the times, four bytes each.
    fn put_times(&mut self, times: &[u32])
        requires { HasRoom self.old (time_bytes times.now) }
        ensures { Puts self.old self.new (time_bytes times.now) }
    {
        for time in times {
            self.put(&time.to_be_bytes());
        }
    }

    /// Puts the record of a task.
    fn put_record(&mut self, task: &Task)
        requires { HasRoom self.old (record_bytes (record_of task.now)) }
        ensures { Puts self.old self.new (record_bytes (record_of task.now)) }
    {
        let times = task.row.times();
        self.put(&[9 + 4 * times.len() as u8, task.number]);
        self.put(&task.period.to_be_bytes());
        self.put(&task.deadline.to_be_bytes());
        self.put_times(times);
    }

    /// Puts the records of the tasks.
    pub(crate) fn put_records(&mut self, tasks: &[Task])
        requires { HasRoom self.old (records_bytes (map record_of tasks.now)) }
        ensures { Puts self.old self.new (records_bytes (map record_of tasks.now)) }
    {
        for task in tasks {
            self.put_record(task);
        }
    }
}
