// The margin: a factor of safety on each time.
ghost use Rattle.std.specs.Prelude.{◌≡◌, ◌≤◌};
ghost use Rattle.book.specs.Checks.{Made};
ghost use Rattle.schedule.specs.Layers.{margin_answer, widened};
ghost use Rattle.schedule.specs.Lemmas.Layered.{widened_order, widened_never};

use crate::change::{CAP, Change};
use book::refusal::Refusal;

/// The smallest margin: no change.
pub const SMALLEST_MARGIN: u32 = 1_000;

/// The largest margin: four times each time.
pub const LARGEST_MARGIN: u32 = 4_000;

/// A factor in thousandths, 1,000 to 4,000. As a layer it takes that many thousandths of each time, rounded up.
#[derive(Clone, Copy)]
pub struct Margin {
    thousandths: u32,
    ghost within: { (1000 ≤ thousandths) × (thousandths ≤ 4000) },
}

impl TryFrom<u32> for Margin {
    type Error = Refusal;

    ghost try_from_gives = { λ thousandths r. Made (λ m. m.thousandths) (margin_answer thousandths) r };

    fn try_from(thousandths: u32) -> Result<Margin, Refusal> {
        if !(SMALLEST_MARGIN..=LARGEST_MARGIN).contains(&thousandths) {
            return Err(Refusal::Margin);
        }
        Ok(Margin { thousandths })
    }
}

impl Change for Margin {
    ghost changed = { λ m x. widened m.thousandths x };

    ghost keeps_order = { λ margin x y le. widened_order margin.thousandths x y le };

    ghost never_shortens = { λ margin x le. widened_never margin.thousandths x margin.within.0 le };

    fn change(&self, time: u32) -> u32 {
        let widened = (u64::from(time) * u64::from(self.thousandths)).div_ceil(1000);
        widened.min(CAP) as u32
    }
}
