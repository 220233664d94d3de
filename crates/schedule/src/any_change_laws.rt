// Either kind of change is one.
ghost use Rattle.schedule.specs.AnyLayer.{changed_by};
ghost use Rattle.schedule.specs.declared.any_change.AnyChange.TheVariants as any;
ghost use Rattle.schedule.specs.Lemmas.Layered.{charged_order, widened_order, charged_never, widened_never};

use crate::any_change::AnyChange;
use crate::change::Change;

impl Change for AnyChange {
    ghost changed = { changed_by };

    ghost keeps_order = { elim [
      | any.Charge c ↦ λ x y le. charged_order c.ticks x y le
      | any.Margin m ↦ λ x y le. widened_order m.thousandths x y le
    ] };

    ghost never_shortens = { elim [
      | any.Charge c ↦ λ x le. charged_never c.ticks x le
      | any.Margin m ↦ λ x le. widened_never m.thousandths x m.within.0 le
    ] };

    fn change(&self, time: u32) -> u32 {
        match self {
            AnyChange::Charge(charge) => charge.change(time),
            AnyChange::Margin(margin) => margin.change(time),
        }
    }
}
