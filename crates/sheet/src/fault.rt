// A fault: why a sheet is not loaded, and where.
use book::refusal::Refusal;

/// Why a sheet is declined, and the place: 0 for its head, and for a record that of its length byte, counted from 0.
#[derive(Clone, Copy, PartialEq, Eq, Debug)]
pub struct Fault {
    pub refusal: Refusal,
    pub place: usize,
}
