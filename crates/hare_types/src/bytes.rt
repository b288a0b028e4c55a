//! Sums of sizes and alignments.

ghost use Rattle.std.specs.Prelude.{◌≡◌, ◌≤◌, ◌+◌, ◌*◌, ◌^◌, IfSome};
ghost use Rattle.hare_types.specs.Layout.{round_up, scalar_extent};
ghost use Rattle.hare_types.specs.Kept.{told, IsBounded};
ghost use Rattle.hare_types.specs.Run.{IsRun, with_part, fields_of, members_of};

use crate::extent::Extent;
use crate::row::Scalar;

/// The greatest number of bytes that is told exactly: 2^40.
const MOST_BYTES: u128 = 1_099_511_627_776;

/// The bytes of the types that are written by one word, `None` of `never` and `opaque`.
pub(crate) fn scalar_extent(k: Scalar) -> Option<Extent>
    ensures value { result ≡ scalar_extent k }
    ensures within { IfSome result (λ x. IsBounded x) }
{
    let bytes = match k {
        Scalar::Never | Scalar::Opaque => return None,
        Scalar::Void => return Some(Extent { size: 0, align: 1 }),
        Scalar::Str => return Some(Extent { size: 24, align: 8 }),
        Scalar::Bool | Scalar::I8 | Scalar::U8 => 1,
        Scalar::I16 | Scalar::U16 => 2,
        Scalar::I32 | Scalar::U32 | Scalar::Int | Scalar::Uint | Scalar::Rune => 4,
        Scalar::I64 | Scalar::U64 | Scalar::Size => 8,
    };
    Some(Extent {
        size: bytes,
        align: bytes,
    })
}

/// `n` rounded up to a multiple of `align`.
fn round_up(n: u128, align: u64) -> u128
    requires few { n ≤ 2 ^ 120 }
    requires low { 1 ≤ align }
    requires high { align ≤ 8 }
    ensures value { result ≡ round_up n align }
    ensures within { result ≤ n + 7 }
{
    let align = align as u128;
    (n + (align - 1)) / align * align
}

/// What is told of so many bytes: more than 2^40 are told as 2^40 + 1.
fn told(size: u128, align: u64) -> Extent
    requires low { 1 ≤ align }
    requires high { align ≤ 8 }
    ensures value { result ≡ told (record { size = size; align = align }) }
    ensures within { IsBounded result }
{
    Extent {
        size: size.min(MOST_BYTES + 1) as u64,
        align,
    }
}

/// `n` items, one behind another.
pub(crate) fn repeated(n: u64, x: Extent) -> Extent
    requires { IsBounded x }
    ensures value { result ≡ told (record { size = n * x.size; align = x.align }) }
    ensures within { IsBounded result }
{
    told(n as u128 * x.size as u128, x.align)
}

/// What is known of parts, as far as they were looked at: where they end as fields, the greatest size and the greatest alignment.
#[derive(Clone, Copy)]
pub(crate) struct Run {
    pub end: u128,
    pub size: u64,
    pub align: u64,
}

/// What is known with one more part.
pub(crate) fn with_part(run: Run, x: Extent) -> Run
    requires run { IsRun run }
    requires end { run.end ≤ 2 ^ 119 }
    requires bounded { IsBounded x }
    ensures value { result ≡ with_part run x }
    ensures within { IsRun result }
    ensures end { result.end ≤ run.end + 2199023255552 }
{
    Run {
        end: round_up(run.end, x.align) + x.size as u128,
        size: run.size.max(x.size),
        align: run.align.max(x.align),
    }
}

/// The extent of a struct or tuple whose parts were looked at.
pub(crate) fn fields_extent(run: Run) -> Extent
    requires run { IsRun run }
    requires end { run.end ≤ 2 ^ 119 }
    ensures value { result ≡ fields_of run }
    ensures within { IsBounded result }
{
    told(round_up(run.end, run.align), run.align)
}

/// The extent of a union whose members were looked at: the tag in the first four bytes, and behind it the payload.
pub(crate) fn union_extent(run: Run) -> Extent
    requires { IsRun run }
    ensures value { result ≡ members_of run }
    ensures within { IsBounded result }
{
    let align = run.align.max(4);
    let payload = round_up(4, run.align);
    told(round_up(payload + run.size as u128, align), align)
}
