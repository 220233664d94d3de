// Greatest common divisors and least common multiples.
ghost use Rattle.std.specs.Prelude.{◌≤◌};
ghost use Rattle.book.specs.Divisors.{IsGcd, IsLcm};

/// The greatest common divisor, by Euclid: the second number falls to 0.
fn gcd(a: u64, b: u64) -> u64
    ensures { IsGcd a b result }
{
    if b == 0 { a } else { gcd(b, a % b) }
}

/// The least common multiple of one period and the hyperperiod of others. It fits: each factor is within its range.
pub(crate) fn lcm(period: u32, whole: u64) -> u64
    requires some { 1 ≤ period }
    requires short { period ≤ 1000000 }
    requires within { whole ≤ 10000000000 }
    ensures { IsLcm period whole result }
{
    let period = u64::from(period);
    period / gcd(period, whole) * whole
}
