// A change of either kind, for programs that learn only as they run which layers to pile up.
use crate::charge::Charge;
use crate::margin::Margin;

/// A charge or a margin.
#[derive(Clone, Copy)]
pub enum AnyChange {
    Charge(Charge),
    Margin(Margin),
}
