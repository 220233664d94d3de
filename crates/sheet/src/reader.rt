// A sheet being read. Each method takes its part off the front, or gives the fault, which `?` carries up with its place unaltered.
ghost use Rattle.std.specs.Prelude.{◌≡◌, ◌*◌, [], ◌∷◌, length};
ghost use Rattle.sheet.specs.Decoding.{placed};
ghost use Rattle.sheet.specs.Encoding.{four_bytes, time_bytes};
ghost use Rattle.sheet.specs.Reading.{CountRead, SizeRead, Takes, fault};

use crate::fault::Fault;
use book::refusal::Refusal;

/// What is left of a sheet to read, and the place that a fault in it is given: that of the record being read.
#[derive(Drop)]
pub(crate) struct Reader<'a> {
    pub(crate) bytes: &'a [u8],
    pub(crate) place: usize,
}

impl Reader<'_> {
    /// The fault of this refusal, at the reader's place.
    pub(crate) fn fault(&self, refusal: Refusal) -> Fault
        ensures { result ≡ fault refusal self.now.place }
    {
        Fault {
            refusal,
            place: self.place,
        }
    }

    /// What the book answers, a refusal with the reader's place. The closure makes the fault: with `self.fault` the clause stayed open.
    pub(crate) fn placed(&self, answer: Result<(), Refusal>) -> Result<(), Fault>
        ensures { result ≡ placed self.now.place answer }
    {
        let place = self.place;
        answer.map_err(|refusal| Fault { refusal, place })
    }

    /// The next `N` bytes.
    fn take<const N: usize>(&mut self) -> Result<[u8; N], Fault>
        ensures { Takes self.old self.new N (λ bytes. bytes) result }
    {
        let Some((bytes, rest)) = self.bytes.split_first_chunk() else {
            return Err(self.fault(Refusal::Cut));
        };
        self.bytes = rest;
        Ok(*bytes)
    }

    /// The next byte.
    pub(crate) fn byte(&mut self) -> Result<u8, Fault>
        ensures { Takes self.old self.new 1 (λ byte. byte ∷ []) result }
    {
        let [byte] = self.take::<1>()?;
        Ok(byte)
    }

    /// The number in the next four bytes, the highest first.
    pub(crate) fn number(&mut self) -> Result<u32, Fault>
        ensures { Takes self.old self.new 4 four_bytes result }
    {
        Ok(u32::from_be_bytes(self.take()?))
    }

    /// Fills the times with the next numbers.
    pub(crate) fn times(&mut self, times: &mut [u32]) -> Result<(), Fault>
        ensures { Takes self.old self.new (4 * length times.old) (λ _. time_bytes times.new) result }
    {
        for time in times.iter_mut() {
            *time = self.number()?;
        }
        Ok(())
    }

    /// How many times the next record has, by its length byte, which has to be 9 + 4k for a k from 1 to 11.
    pub(crate) fn time_count(&mut self) -> Result<usize, Fault>
        ensures { CountRead self.old self.new result }
    {
        let length = self.byte()?;
        if !(13..=53).contains(&length) || length % 4 != 1 {
            return Err(self.fault(Refusal::Length));
        }
        Ok(usize::from(length - 9) / 4)
    }

    /// The cache size in the head of a sheet.
    pub(crate) fn cache_size(&mut self) -> Result<u16, Fault>
        ensures { SizeRead self.old self.new result }
    {
        if self.byte()? != 1 {
            return Err(self.fault(Refusal::Version));
        }
        Ok(u16::from_be_bytes(self.take()?))
    }
}
