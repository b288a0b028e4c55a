//! Statements that are put together by hand.

use flat_code::*;
use std::test::Fail;

/// How many statements a loop over a sequence has.
fn count(body: &Flat) -> usize {
    match body {
        Flat::Loop(inner) => match inner.get() {
            Flat::Seq(kids) => kids.len(),
            _ => 0,
        },
        _ => 0,
    }
}

#[test]
fn statements_are_put_together(rt: HostRuntime) -> Result<(), Fail> {
    let mut kids = FlatKids::new(rt.alloc());
    assert!(rt; kids.is_empty());
    kids.push(Flat::Leave(3))?;
    assert!(rt; matches!(kids.get(0), Some(Flat::Leave(3))));
    assert!(rt; kids.get(1).is_none());
    let body = Flat::Loop(FlatBox::new(rt.alloc(), Flat::Seq(kids))?);
    assert_eq!(rt; count(&body), 1);
    Ok(())
}
