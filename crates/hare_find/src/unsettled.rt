//! What is found of a node that settles nothing.

ghost use Rattle.std.specs.Prelude.{◌≡◌, length, IfOk};
ghost use Rattle.hare_types.specs.Store.{Store};
ghost use Rattle.rule_judge.specs.Defined.{IsDefinedTy};
ghost use Rattle.rule_judge.specs.Grown.{IsGrown};
ghost use Rattle.hare_find.specs.Findings.{IsDefinedFinding};
ghost use Rattle.hare_find.specs.Unsettled.{IsUnsettled, IsVoidFinding};

use crate::finding::{Finding, nones};
use hare_types::{Coercion, Scalar, Ty, TypeStore};
use hx_base::Items;
use rule_judge::word;
use std::alloc::{AllocError, Global};

/// What is found of a node of this type with so many kids, where it settles nothing.
pub(crate) fn unsettled(alloc: Global, ty: &Ty, count: usize) -> Result<Finding, AllocError>
    ensures found { IfOk result (IsUnsettled ty.now count) }
    ensures many { IfOk result (λ x. length x.kids ≡ count) }
    ensures defined { IfOk result (λ x. (s : Store) → IsDefinedTy s ty.now → IsDefinedFinding s x) }
{
    let kids = nones(alloc, count)?;
    Ok(Finding {
        ty: *ty,
        own: Coercion { row: 1, to: *ty },
        kids,
        late: Items::new(alloc),
    })
}

/// The same of a node whose type is void. The store may grow in types.
pub(crate) fn find_void(
    alloc: Global,
    s: &mut TypeStore,
    count: usize,
) -> Result<Finding, AllocError>
    ensures found { IfOk result (IsVoidFinding s.new count) }
    ensures many { IfOk result (λ x. length x.kids ≡ count) }
    ensures defined { IfOk result (IsDefinedFinding s.new) }
    ensures grown { IsGrown s.old s.new }
{
    let void = word(s, Scalar::Void)?;
    unsettled(alloc, &Ty::Of(void), count)
}
