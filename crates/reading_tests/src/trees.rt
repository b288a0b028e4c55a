//! Words, lists of tokens, and the kids of forms.

use hare_tree::{
    Fault, Kind, Meaning, Place, Sort, Stop, Suffix, Token, TokenKind, Tokens, Word, kid_sort,
};
use std::alloc::{AllocError, AllocFailed, Global};
use std::test::Fail;

#[test]
fn words_are_put_together(rt: HostRuntime) -> Result<(), Fail> {
    let mut word = Word::new(rt.alloc());
    assert_eq!(rt; word.bytes(), b"".as_slice());
    word.push(b'r')?;
    word.extend(b"ea\xff")?;
    assert_eq!(rt; word.bytes(), b"rea\xff".as_slice());
    Ok(())
}

// A number with this value.
fn number(alloc: Global, value: u128) -> Token {
    Token {
        kind: TokenKind::Number,
        place: Place {
            file: 1,
            line: 2,
            column: 3,
        },
        text: Word::new(alloc),
        number: value,
        suffix: Suffix::Z,
    }
}

#[test]
fn lists_keep_their_order(rt: HostRuntime) -> Result<(), Fail> {
    let mut tokens = Tokens::new(rt.alloc());
    tokens.push(number(rt.alloc(), 5))?;
    tokens.push(number(rt.alloc(), 7))?;
    assert_eq!(rt; tokens.get(0).ok_or("first")?.number, 5);
    assert_eq!(rt; tokens.get(1).ok_or("second")?.number, 7);
    assert!(rt; tokens.get(2).is_none());
    Ok(())
}

// What `?` makes of a failed call.
fn stopped(failed: Result<(), AllocError>) -> Result<(), Stop<Fault>> {
    failed?;
    Ok(())
}

// What `?` makes of a failed call that gives a value back.
fn stopped_with(failed: Result<(), AllocFailed<u8>>) -> Result<(), Stop<Fault>> {
    failed?;
    Ok(())
}

#[test]
fn want_of_memory_stops(rt: HostRuntime) {
    let failed = stopped_with(Err(AllocFailed { value: 7 }));
    assert!(rt; matches!(stopped(Err(AllocError)), Err(Stop::Memory)));
    assert!(rt; matches!(failed, Err(Stop::Memory)));
}

#[test]
fn meanings_differ(rt: HostRuntime) {
    assert_ne!(rt; Meaning::Local(1), Meaning::Decl(1));
    assert_eq!(rt; Meaning::Rt(2), Meaning::Rt(2));
    assert_ne!(rt; Meaning::None, Meaning::Local(0));
}

#[test]
fn kids_stand_in_the_order_of_the_form(rt: HostRuntime) {
    assert_eq!(rt; kid_sort(Kind::Fn, 5, 0), Some(Sort::Export));
    assert_eq!(rt; kid_sort(Kind::Fn, 5, 2), Some(Sort::Params));
    assert_eq!(rt; kid_sort(Kind::Fn, 5, 5), None);
    assert_eq!(rt; kid_sort(Kind::Block, 3, 2), Some(Sort::Statement));
    // The last kids of an array are dots and a comma.
    assert_eq!(rt; kid_sort(Kind::Array, 4, 1), Some(Sort::Level(1)));
    assert_eq!(rt; kid_sort(Kind::Array, 4, 2), Some(Sort::Dots));
    assert_eq!(rt; kid_sort(Kind::Array, 4, 3), None);
}
