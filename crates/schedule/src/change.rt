// What a layer does to one execution time.
ghost use Rattle.std.specs.Prelude.{◌≡◌, ℕ, ◌≤◌, map};

/// A change of one execution time. It keeps the order of times, and makes none shorter, up to the cap.
pub trait Change {
    ghost changed: { Self → ℕ → ℕ };

    /// The changed time.
    fn change(&self, time: u32) -> u32
        ensures { result ≡ changed self.now time };

    ghost keeps_order: { (change : Self) (x y : ℕ) → x ≤ y → changed change x ≤ changed change y };

    ghost never_shortens: { (change : Self) (x : ℕ) → x ≤ 1000001 → x ≤ changed change x };
}

/// No changed time exceeds this: one tick above the longest deadline, so no test passes it.
pub(crate) const CAP: u64 = 1_000_001;

/// Changes each of the times.
pub(crate) fn change_all<C: Change>(change: &C, times: &mut [u32])
    ensures { times.new ≡ map (C.Change.changed change.now) times.old }
{
    for time in times.iter_mut() {
        *time = change.change(*time);
    }
}
