// The charge: what each job pays for the two context switches that it can cause.
ghost use Rattle.std.specs.Prelude.{◌≡◌, ◌≤◌};
ghost use Rattle.book.specs.Checks.{Made};
ghost use Rattle.schedule.specs.Layers.{charge_answer, charged};
ghost use Rattle.schedule.specs.Lemmas.Layered.{charged_never, charged_order};

use crate::change::{CAP, Change};
use book::refusal::Refusal;

/// The largest charge, in ticks.
pub const LARGEST_CHARGE: u32 = 1_000;

/// The ticks of one context switch, 0 to 1,000. As a layer it adds them twice to each time.
#[derive(Clone, Copy)]
pub struct Charge {
    ticks: u32,
    ghost within: { ticks ≤ 1000 },
}

impl TryFrom<u32> for Charge {
    type Error = Refusal;

    ghost try_from_gives = { λ ticks r. Made (λ c. c.ticks) (charge_answer ticks) r };

    fn try_from(ticks: u32) -> Result<Charge, Refusal> {
        if ticks > LARGEST_CHARGE {
            return Err(Refusal::Charge);
        }
        Ok(Charge { ticks })
    }
}

impl Change for Charge {
    ghost changed = { λ c x. charged c.ticks x };

    ghost keeps_order = { λ charge x y le. charged_order charge.ticks x y le };

    ghost never_shortens = { λ charge x le. charged_never charge.ticks x le };

    fn change(&self, time: u32) -> u32 {
        (u64::from(time) + 2 * u64::from(self.ticks)).min(CAP) as u32
    }
}
