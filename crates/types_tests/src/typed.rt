//! Typed trees, put together by hand.

use hare_tree::{Kind, Meaning, Place, Suffix, Word};
use hare_typed::{
    Const, Typed, TypedKids, coat, copies, erase, law_costs_are_of_marks, law_orders_agree,
    law_weights_stay,
};
use hare_types::{Coercion, Ty};
use std::alloc::{AllocError, Global};
use std::test::Fail;

const START: Place = Place {
    file: 0,
    line: 1,
    column: 1,
};

// What keeps this type.
fn kept(ty: &Ty) -> Coercion {
    Coercion { row: 1, to: *ty }
}

// A node of this kind and type, which keeps its type.
fn node(alloc: Global, kind: Kind, ty: &Ty, kids: TypedKids) -> Typed {
    Typed {
        kind,
        place: START,
        text: Word::new(alloc),
        number: 0,
        suffix: Suffix::None,
        node: 0,
        ty: *ty,
        coerce: kept(ty),
        meaning: Meaning::None,
        value: Const::Absent,
        kids,
    }
}

// A node of this kind over a path of this type.
fn over(alloc: Global, kind: Kind, ty: &Ty) -> Result<Typed, AllocError> {
    let path = node(alloc, Kind::Path, ty, TypedKids::new(alloc));
    let mut kids = TypedKids::new(alloc);
    kids.push(path)?;
    Ok(node(alloc, kind, &Ty::Empty, kids))
}

#[test]
fn copies_are_counted(rt: HostRuntime) -> Result<(), Fail> {
    let value = over(rt.alloc(), Kind::Def, &Ty::Null)?;
    assert_eq!(rt; copies(&value, 0), 1);
    assert_eq!(rt; copies(&value, 1), 0);
    Ok(())
}

#[test]
fn marks_are_erased(rt: HostRuntime) -> Result<(), Fail> {
    let value = over(rt.alloc(), Kind::Paren, &Ty::Null)?;
    let tree = erase(rt.alloc(), &value)?;
    assert!(rt; tree.kind == Kind::Paren);
    assert!(rt; tree.kids.get(0).ok_or("kid")?.kind == Kind::Path);
    Ok(())
}

#[test]
fn coercions_are_settled(rt: HostRuntime) -> Result<(), Fail> {
    let mut value = over(rt.alloc(), Kind::Paren, &Ty::Null)?;
    value.kids.settle(0, kept(&Ty::Iconst(3)));
    let Some(kid) = value.kids.get(0) else {
        return Err("a kid".into());
    };
    assert_eq!(rt; kid.coerce, kept(&Ty::Iconst(3)));
    coat(&mut value, [kept(&Ty::Iconst(4))].as_slice());
    assert_eq!(rt; value.coerce, kept(&Ty::Iconst(4)));
    Ok(())
}

#[test]
fn laws_are_called(_rt: HostRuntime) {
    law_costs_are_of_marks();
    law_orders_agree();
    law_weights_stay();
}
