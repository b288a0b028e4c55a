//! Rows that no program spells, and tags that are only looked up.

use hare_layout::{Bools, Places, Spelled, admit, tag_of};
use hare_tree::{Place, Stop};
use hare_types::{Field, Fields, Row, Scalar, TypeIds, TypeStore};
use std::test::Fail;

const HERE: Place = Place {
    file: 0,
    line: 3,
    column: 4,
};

#[test]
fn a_field_has_a_name_of_the_store(rt: HostRuntime) -> Result<(), Fail> {
    let mut store = TypeStore::new(rt.alloc());
    let int = store.intern(Row::Scalar(Scalar::Int))?;
    let mut fields = Fields::new(rt.alloc());
    fields.push(Field { name: 0, ty: int })?;
    assert!(rt; store.intern(Row::Struct(fields)).is_err());
    Ok(())
}

#[test]
fn a_union_of_one_member_is_the_member(rt: HostRuntime) -> Result<(), Fail> {
    let mut store = TypeStore::new(rt.alloc());
    let int = store.intern(Row::Scalar(Scalar::Int))?;
    let mut members = TypeIds::new(rt.alloc());
    members.push(int)?;
    let mut spreads = Bools::new(rt.alloc());
    spreads.push(false)?;
    let mut places = Places::new(rt.alloc());
    places.push(HERE)?;
    let one = Spelled {
        row: Row::Union(members),
        spreads,
        places,
    };
    match admit(rt.alloc(), &mut store, &one, HERE) {
        Ok(t) => assert_eq!(rt; t, int),
        Err(_) => assert!(rt; false),
    }
    Ok(())
}

#[test]
fn a_union_has_members(rt: HostRuntime) -> Result<(), Fail> {
    let mut store = TypeStore::new(rt.alloc());
    let none = Spelled {
        row: Row::Union(TypeIds::new(rt.alloc())),
        spreads: Bools::new(rt.alloc()),
        places: Places::new(rt.alloc()),
    };
    match admit(rt.alloc(), &mut store, &none, HERE) {
        Err(Stop::Fault(fault)) => assert!(rt; fault.number == 19 && fault.place == HERE),
        _ => assert!(rt; false),
    }
    Ok(())
}

#[test]
fn a_tag_is_told(rt: HostRuntime) -> Result<(), Fail> {
    let mut store = TypeStore::new(rt.alloc());
    let int = store.intern(Row::Scalar(Scalar::Int))?;
    let tag = store.mention(int)?;
    assert_eq!(rt; tag_of(&store, int), tag);
    Ok(())
}
