//! Amounts of weight and of bytes, which stop at a greatest one.

ghost use Rattle.std.specs.Prelude.{◌≡◌, ◌+◌, ◌*◌, suc, min};
ghost use Rattle.hare_costs.specs.Amounts as spec;

/// The greatest amount that is told: 2^40.
pub const MOST: u64 = 1_099_511_627_776;

/// What nodes cost together. Each sum stops at `MOST`.
#[derive(Clone, Copy, Debug, PartialEq, Eq)]
pub struct Amount {
    /// The sum of their weights.
    pub weight: u64,
    /// The bytes that they add to a frame.
    pub frame: u64,
}

impl Amount {
    /// Nothing.
    pub(crate) fn none() -> Amount
        ensures { result ≡ spec.none }
    {
        Amount {
            weight: 0,
            frame: 0,
        }
    }

    /// Both together.
    pub(crate) fn plus(self, other: Amount) -> Amount
        ensures { result ≡ spec.plus self other }
    {
        Amount {
            weight: sum(self.weight, other.weight),
            frame: sum(self.frame, other.frame),
        }
    }

    /// So many of them and one more.
    pub(crate) fn once_and(self, times: usize) -> Amount
        ensures { result ≡ spec.times (suc times) self }
    {
        Amount {
            weight: once_and(self.weight, times),
            frame: once_and(self.frame, times),
        }
    }
}

/// A sum, which stops at `MOST`.
pub(crate) fn sum(a: u64, b: u64) -> u64
    ensures { result ≡ min (a + b) MOST }
{
    let all = a.saturating_add(b);
    if all < MOST { all } else { MOST }
}

/// So many times an amount and once more, which stops at `MOST`.
fn once_and(a: u64, times: usize) -> u64
    ensures { result ≡ min (suc times * a) MOST }
{
    sum(a, a.saturating_mul(times as u64))
}
