//! Numbers that have a range: alignments, counts of bytes, and how much a module holds.

ghost use Rattle.std.specs.Prelude.{◌≡◌, ◌-◌, ◌^◌, min, not, Bool, sum_by, count_by};
ghost use Rattle.std.specs.List.{list_all};
ghost use Rattle.il_code.specs.Rules.{is_alignment, part_is_small, inst_is_small, item_is_small, is_function, value_size, part_size, item_size, is_small};

use crate::types::{Block, IlItem, Inst, Part, PartValue};

/// How many functions a module may have.
const MOST_FUNCTIONS: usize = 268_435_456;

/// How many data items a module may have.
const MOST_ITEMS: usize = 1_073_741_824;

/// How many bytes the data of a module may have, and so may zeros and a blit.
const MOST_BYTES: u64 = 1_073_741_824;

/// Whether alignments and counts of bytes are in their ranges.
pub fn item_is_small(i: &IlItem) -> bool
    ensures { result ≡ item_is_small i.now }
{
    match i {
        IlItem::Data { align, parts, .. } => {
            is_alignment(*align) && parts_are_small(parts.as_slice())
        }
        IlItem::Function { blocks, .. } => blocks_are_small(blocks.as_slice()),
    }
}

fn is_alignment(n: u32) -> bool
    ensures { result ≡ is_alignment n }
{
    n == 1 || n == 2 || n == 4 || n == 8 || n == 16
}

fn parts_are_small(parts: &[Part]) -> bool
    ensures { result ≡ list_all part_is_small parts.now }
{
    parts.iter().all(|p| part_is_small(p))
}

fn blocks_are_small(blocks: &[Block]) -> bool
    ensures { result ≡ list_all (λ b. list_all inst_is_small b.insts) blocks.now }
{
    blocks.iter().all(|b| block_is_small(b))
}

fn part_is_small(p: &Part) -> bool
    ensures { result ≡ part_is_small p.now }
{
    match p {
        Part::Values { .. } => true,
        Part::Zero(n) => *n <= MOST_BYTES,
    }
}

fn inst_is_small(i: &Inst) -> bool
    ensures { result ≡ inst_is_small i.now }
{
    match i {
        Inst::Set { .. } | Inst::Store { .. } | Inst::Call { .. } => true,
        Inst::Blit { bytes, .. } => *bytes <= MOST_BYTES,
    }
}

fn block_is_small(b: &Block) -> bool
    ensures { result ≡ list_all inst_is_small b.now.insts }
{
    b.insts.as_slice().iter().all(|i| inst_is_small(i))
}

/// Whether the module has no more functions, data items and bytes of data than it may.
pub fn is_small(items: &[IlItem]) -> bool
    ensures { result ≡ is_small items.now }
{
    how_much_code(items) <= MOST_FUNCTIONS
        && how_much_data(items) <= MOST_ITEMS
        && items_size(items) <= MOST_BYTES
}

/// What is code or data.
trait Stored {
    /// Whether it is code.
    ghost is_code: { Self → Bool };

    /// Whether it is code.
    fn is_code(&self) -> bool
        ensures { result ≡ is_code self.now };
}

impl Stored for IlItem {
    ghost is_code = { λ i. is_function i };

    fn is_code(&self) -> bool {
        match self {
            IlItem::Data { .. } => false,
            IlItem::Function { .. } => true,
        }
    }
}

/// How many are code.
fn how_much_code<T: Stored>(xs: &[T]) -> usize
    ensures { result ≡ count_by T.is_code xs.now }
{
    xs.iter().filter(|x| x.is_code()).count()
}

/// How many are data.
fn how_much_data<T: Stored>(xs: &[T]) -> usize
    ensures { result ≡ count_by (λ x. not (T.is_code x)) xs.now }
{
    xs.iter().filter(|x| !x.is_code()).count()
}

fn items_size(items: &[IlItem]) -> u64
    ensures { result ≡ min (sum_by item_size items.now) (2 ^ 64 - 1) }
{
    let mut total: u64 = 0;
    for i in items {
        total = total.saturating_add(item_size(i));
    }
    total
}

fn item_size(i: &IlItem) -> u64
    ensures { result ≡ min (item_size i.now) (2 ^ 64 - 1) }
{
    match i {
        IlItem::Data { parts, .. } => parts_size(parts.as_slice()),
        IlItem::Function { .. } => 0,
    }
}

fn parts_size(parts: &[Part]) -> u64
    ensures { result ≡ min (sum_by part_size parts.now) (2 ^ 64 - 1) }
{
    let mut total: u64 = 0;
    for p in parts {
        total = total.saturating_add(part_size(p));
    }
    total
}

fn part_size(p: &Part) -> u64
    ensures { result ≡ min (part_size p.now) (2 ^ 64 - 1) }
{
    match p {
        Part::Values { width, values } => values_size(*width, values.as_slice()),
        Part::Zero(n) => *n,
    }
}

fn values_size(width: u32, values: &[PartValue]) -> u64
    ensures { result ≡ min (sum_by (value_size width) values.now) (2 ^ 64 - 1) }
{
    let mut total: u64 = 0;
    for v in values {
        total = total.saturating_add(value_size(width, v));
    }
    total
}

fn value_size(width: u32, v: &PartValue) -> u64
    ensures { result ≡ value_size width v.now }
{
    match v {
        PartValue::Number(_) | PartValue::Symbol(_, _) => u64::from(width),
        PartValue::Str(s) => s.bytes().len() as u64,
    }
}
