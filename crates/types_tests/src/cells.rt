//! Lists of cells with more of them than memory has room for.

use hare_typed::{Cell, Cells};
use std::alloc::{AllocError, Global};
use std::test::Fail;

#[test]
fn repeated_cells_stand_once(rt: HostRuntime) -> Result<(), Fail> {
    let mut part = Cells::new(rt.alloc());
    part.push(Cell::Byte(7))?;
    part.push(Cell::Undef)?;
    part.repeat(0, 67_108_863)?;
    let mut whole = Cells::new(rt.alloc());
    whole.push(Cell::Byte(1))?;
    whole.append(rt.alloc(), &part)?;
    whole.repeat(1, 67_108_863)?;
    assert_eq!(rt; whole.len(), 9_007_199_254_740_993);
    assert!(rt; whole.get(0) == Some(Cell::Byte(1)));
    assert!(rt; whole.get(9_007_199_254_740_991) == Some(Cell::Byte(7)));
    assert!(rt; whole.get(9_007_199_254_740_993).is_none());
    assert!(rt; whole.repeat(0, 4_096).is_err());
    let mut read = [Cell::Byte(0); 3];
    assert!(rt; whole.read(134_217_728, &mut read));
    assert!(rt; read == [Cell::Undef, Cell::Byte(7), Cell::Undef]);
    Ok(())
}

#[test]
fn parts_keep_what_is_repeated(rt: HostRuntime) -> Result<(), Fail> {
    let mut whole = Cells::new(rt.alloc());
    whole.push(Cell::Byte(1))?;
    whole.push(Cell::Byte(2))?;
    whole.push(Cell::Byte(3))?;
    whole.repeat(1, 4_611_686_018_427_387_000)?;
    whole.push(Cell::Byte(4))?;
    let part = whole.part(rt.alloc(), 1, 9_223_372_036_854_774_003)?;
    assert_eq!(rt; part.len(), 9_223_372_036_854_774_003);
    assert!(rt; part.get(0) == Some(Cell::Byte(2)));
    assert!(rt; part.get(9_223_372_036_854_774_001) == Some(Cell::Byte(3)));
    assert!(rt; part.get(9_223_372_036_854_774_002) == Some(Cell::Byte(4)));
    let cut = whole.part(rt.alloc(), 2, 2)?;
    assert_eq!(rt; cut.len(), 2);
    assert!(rt; cut.get(0) == Some(Cell::Byte(3)));
    assert!(rt; cut.get(1) == Some(Cell::Byte(2)));
    Ok(())
}

// Cells of one byte, kept as one that is repeated behind so many that are not.
fn bytes(alloc: Global, written: usize, repeated: usize) -> Result<Cells, AllocError> {
    let mut cells = Cells::new(alloc);
    for _ in 0..written {
        cells.push(Cell::Byte(7))?;
    }
    cells.push(Cell::Byte(7))?;
    cells.repeat(written, repeated)?;
    Ok(cells)
}

#[test]
fn lists_are_the_same_however_kept(rt: HostRuntime) -> Result<(), Fail> {
    let mut once = bytes(rt.alloc(), 0, 67_108_863)?;
    let mut later = bytes(rt.alloc(), 3, 67_108_860)?;
    let mut rows = bytes(rt.alloc(), 0, 8_191)?;
    rows.repeat(0, 8_191)?;
    assert!(rt; once.is_same(&later));
    assert!(rt; rows.is_same(&later));
    once.push(Cell::Byte(1))?;
    later.push(Cell::Byte(2))?;
    rows.push(Cell::Byte(1))?;
    assert!(rt; !once.is_same(&later));
    assert!(rt; once.is_same(&rows));
    Ok(())
}
