//! The kids of the node of a declaration, as its rows read them.

ghost use Rattle.std.specs.Prelude.{◌≡◌, true, [], ◌∷◌, slice_get, Some, map, IfOk};
ghost use Rattle.hare_tree.specs.Node.{head, kids_of};
ghost use Rattle.hare_typed.specs.Typed.{TypedNode, typed_nodes};
ghost use Rattle.hare_typed.specs.Erased.{erase, erase_each};
ghost use Rattle.hare_modules.specs.Uses.{kid};
ghost use Rattle.hare_whole.specs.Listing.{written_types};
ghost use Rattle.rule_ctl.specs.Declaring.{declares};
ghost use Rattle.hare_bindings.specs.Own.{void_leaf, type_or_leaf, kids_with};

use hare_copies::copy_tree;
use hare_tree::{Meaning, Tree, Word};
use hare_typed::{Const, Typed, TypedKids};
use hare_types::{Coercion, Ty, TypeId};
use std::alloc::{AllocError, Global};

/// How many kids the node of a def or of a global has: `export`, the name, the written type and the value, or what stands in the place of
/// what is left out.
const KIDS: usize = 4;

/// What stands there without parts, of which nothing is asked. Want of memory where it has parts.
fn leaf(alloc: Global, t: &Tree, void: TypeId) -> Result<Typed, AllocError>
    ensures value { IfOk result (λ x. x ≡ void_leaf void t.now) }
    ensures erases { IfOk result (λ x. erase x ≡ t.now) }
{
    if t.kids.len() != 0 {
        return Err(AllocError);
    }
    let text = Word::copy(alloc, t.text.bytes())?;
    Ok(Typed {
        kind: t.kind,
        place: t.place,
        text,
        number: t.number,
        suffix: t.suffix,
        node: 0,
        ty: Ty::Of(void),
        coerce: Coercion {
            row: 1,
            to: Ty::Of(void),
        },
        meaning: Meaning::None,
        value: Const::Absent,
        kids: TypedKids::new(alloc),
    })
}

/// The written type, or what stands in its place.
fn written(alloc: Global, t: &Tree, types: &TypedKids, void: TypeId) -> Result<Typed, AllocError>
    requires { (x : TypedNode) → slice_get types.now 0 ≡ Some x → erase x ≡ t.now }
    ensures value { IfOk result (λ x. x ≡ type_or_leaf void t.now types.now) }
    ensures erases { IfOk result (λ x. erase x ≡ t.now) }
{
    match types.get(0) {
        Some(x) => copy_tree(alloc, x),
        None => leaf(alloc, t, void),
    }
}

/// Four trees as kids.
fn four(alloc: Global, a: Typed, b: Typed, c: Typed, d: Typed) -> Result<TypedKids, AllocError>
    ensures { IfOk result (λ xs. xs ≡ a ∷ b ∷ c ∷ d ∷ []) }
{
    let mut kids = TypedKids::with_room(alloc, 4);
    kids.push(a)?;
    kids.push(b)?;
    kids.push(c)?;
    kids.push(d)?;
    Ok(kids)
}

/// The kids of the node of a declaration, where `void` is the type void: what stands there without parts, the written type, and the value.
pub(crate) fn own_kids(
    alloc: Global,
    decl: &Tree,
    types: &TypedKids,
    value: &Typed,
    void: TypeId,
) -> Result<TypedKids, AllocError>
    requires kind { declares (head decl.now).kind ≡ true }
    requires types { map erase types.now ≡ map (λ r. r.1) (written_types decl.now) }
    requires value { erase value.now ≡ kid decl.now 3 }
    ensures kids { IfOk result (λ xs. xs ≡ kids_with void decl.now types.now value.now) }
    ensures erases { IfOk result (λ xs. erase_each (typed_nodes xs) ≡ kids_of decl.now) }
{
    if decl.kids.len() != KIDS {
        return Err(AllocError);
    }
    let Some(first) = decl.kids.get(0) else {
        return Err(AllocError);
    };
    let Some(name) = decl.kids.get(1) else {
        return Err(AllocError);
    };
    let Some(third) = decl.kids.get(2) else {
        return Err(AllocError);
    };
    let export = leaf(alloc, first, void)?;
    let called = leaf(alloc, name, void)?;
    let of = written(alloc, third, types, void)?;
    let copy = copy_tree(alloc, value)?;
    four(alloc, export, called, of, copy)
}
