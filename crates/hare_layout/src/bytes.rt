//! Multiples of alignments.

ghost use Rattle.std.specs.Prelude.{◌≡◌, ◌≤◌, ◌+◌, ◌^◌};
ghost use Rattle.hare_types.specs.Layout.{round_up};

/// `n` rounded up to a multiple of `align`.
pub(crate) fn round_up(n: u128, align: u64) -> u128
    requires few { n ≤ 2 ^ 120 }
    requires low { 1 ≤ align }
    requires high { align ≤ 8 }
    ensures value { result ≡ round_up n align }
    ensures within { result ≤ n + 7 }
{
    let align = align as u128;
    (n + (align - 1)) / align * align
}
