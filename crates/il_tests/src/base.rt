//! Each call with ample memory: that it answers, and what a person expects of it.

use hx_base::{Bytes, Items, Text, le_byte, le_get, round_up, wrap};
use std::test::Fail;

#[test]
fn texts_are_put_together(rt: HostRuntime) -> Result<(), Fail> {
    let mut text = Text::new(rt.alloc());
    text.append(&Text::copy(rt.alloc(), "line ")?)?;
    text.push(b'#')?;
    text.push_decimal(i128::MIN)?;
    text.push_decimal(0)?;
    assert_eq!(rt;
        text.bytes(),
        b"line #-1701411834604692317316873037158841057280".as_slice()
    );
    Ok(())
}

#[test]
fn bytes_are_put_together(rt: HostRuntime) -> Result<(), Fail> {
    let mut bytes = Bytes::new(rt.alloc());
    bytes.extend(b"\0\xff")?;
    bytes.extend(b"")?;
    bytes.extend(b"\n")?;
    assert_eq!(rt; bytes.bytes(), b"\0\xff\n".as_slice());
    Ok(())
}

#[test]
fn lists_keep_their_order(rt: HostRuntime) -> Result<(), Fail> {
    let mut list: Items<u64> = Items::new(rt.alloc());
    assert!(rt; list.is_empty());
    list.push(7)?;
    list.push(9)?;
    assert!(rt; !list.is_empty());
    assert_eq!(rt; list.len(), 2);
    assert_eq!(rt; list.get(1), Some(&9));
    assert_eq!(rt; list.get(2), None);
    assert_eq!(rt; list.as_slice(), [7, 9].as_slice());
    Ok(())
}

#[test]
fn lists_are_cut(rt: HostRuntime) -> Result<(), Fail> {
    let mut list: Items<u64> = Items::new(rt.alloc());
    assert_eq!(rt; list.pop(), None);
    list.push(7)?;
    list.push(9)?;
    list.push(11)?;
    list.set(1, 8);
    list.set(3, 0);
    assert_eq!(rt; list.pop(), Some(11));
    assert_eq!(rt; list.as_slice(), [7, 8].as_slice());
    list.truncate(1);
    list.truncate(3);
    assert_eq!(rt; list.as_slice(), [7].as_slice());
    Ok(())
}

#[test]
fn numbers_are_cut_and_put_together(rt: HostRuntime) {
    assert_eq!(rt; wrap(-129, 8, true), 127);
    assert_eq!(rt; wrap(-129, 8, false), 127);
    assert_eq!(rt; wrap(i128::MAX, 64, true), -1);
    assert_eq!(rt; wrap(i128::MIN, 63, false), 0);
    assert_eq!(rt; le_get(b"\xff"), 255);
    assert_eq!(rt; le_get(b"\x01\x02\0\0\0\0\0\xff"), 0xff00_0000_0000_0201);
    assert_eq!(rt; le_byte(0xfe00_0000_0000_0201, 0), 1);
    assert_eq!(rt; le_byte(0xfe00_0000_0000_0201, 7), 0xfe);
    assert_eq!(rt; round_up(0, 8), 0);
    assert_eq!(rt; round_up(17, 16), 32);
    assert_eq!(rt; round_up(u64::MAX - 16, 1), u64::MAX - 16);
}
