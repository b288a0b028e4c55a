//! Numbers of a few bits or bytes.

ghost use Rattle.std.specs.Prelude.{◌≡◌, ◌+◌, ◌^◌, ◌<◌, ◌≤◌, length, slice_get, Some};
ghost use Rattle.std.specs.Int.{IsPowerOfTwo};
ghost use Rattle.hx_base.specs.Memory.{le_bytes, le_number, round_up};
ghost use Rattle.hx_base.specs.Numbers.{wrap};

/// A number modulo 2 to the power of `bits`, which is 1 to 64. Read with the sign it is from - 2^(bits - 1) to 2^(bits - 1) - 1, else from
/// 0 to 2^bits - 1.
pub fn wrap(v: i128, bits: u32, signed: bool) -> i128
    requires some { 1 ≤ bits }
    requires few { bits ≤ 64 }
    ensures { result ≡ wrap v bits signed }
{
    let modulus = 1i128 << bits;
    let rest = v.rem_euclid(modulus);
    if signed && rest >= 1 << (bits - 1) {
        rest - modulus
    } else {
        rest
    }
}

/// The number that 1 to 8 bytes spell, the lowest first.
pub fn le_get(b: &[u8]) -> u64
    requires some { 1 ≤ length b.now }
    requires few { length b.now ≤ 8 }
    ensures { result ≡ le_number b.now }
{
    let mut number = 0;
    for i in (0..b.len()).rev() {
        number = number << 8 | u64::from(b[i]);
    }
    number
}

/// Byte `k` of the eight of a number, the lowest first, where `k` is below 8.
pub fn le_byte(v: u64, k: u32) -> u8
    requires { k < 8 }
    ensures { slice_get (le_bytes 8 v) k ≡ Some result }
{
    v.to_le_bytes()[k as usize]
}

/// The least multiple of `a` that is at least `v`, where `a` is a power of two and the sum of both is below 2^64.
pub fn round_up(v: u64, a: u64) -> u64
    requires power { IsPowerOfTwo a }
    requires fits { v + a < 2 ^ 64 }
    ensures { result ≡ round_up v a }
{
    (v + (a - 1)) & !(a - 1)
}
