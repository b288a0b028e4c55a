//! What rows of written types read of the store.

ghost use Rattle.std.specs.Prelude.{◌≡◌, ◌<◌, true, false, length};
ghost use Rattle.hare_types.specs.ByIds.{row_at, has_size_at};
ghost use Rattle.hare_types.specs.Store.{Store};
ghost use Rattle.hare_types.specs.Later.{IsLater};
ghost use Rattle.hare_types.specs.declared.row.Scalar.TheVariants as keyword;
ghost use Rattle.hare_rules.specs.Words.{is_word};
ghost use Rattle.hare_seen.specs.Sizes.{is_small_at};
ghost use Rattle.rule_types.specs.Known.{IsKnown};

use hare_types::{Row, Scalar, TypeId, TypeStore};

/// The greatest size of a type, in bytes.
const MOST_BYTES: u64 = 67_108_864;

/// Whether values of the type have a size.
pub(crate) fn has_size(s: &TypeStore, t: TypeId) -> bool
    requires { IsKnown s.now t }
    ensures { (f : Store) → IsLater s.now f → result ≡ has_size_at f t }
{
    let _law = s.row(t);
    s.has_size(t)
}

/// Whether the type is `never` itself, and not a name of it.
pub(crate) fn is_never(s: &TypeStore, t: TypeId) -> bool
    requires { t < length s.now.rows }
    ensures { (f : Store) → IsLater s.now f → result ≡ is_word keyword.Never (row_at f t) }
{
    matches!(s.row(t), Row::Scalar(Scalar::Never))
}

/// Whether the type has at most as many bytes as a type may have. It is so of one of whose bytes nothing is known yet.
pub(crate) fn is_small(s: &TypeStore, t: TypeId) -> bool
    ensures small { result ≡ true → is_small_at s.now t ≡ true }
    ensures large { result ≡ false → (f : Store) → IsLater s.now f → is_small_at f t ≡ false }
{
    match s.extent(t) {
        Some(x) => x.size <= MOST_BYTES,
        None => true,
    }
}
