//! Trees that are read from places in lists of tokens, and from lists that no text has.

use hare_lex::tokens;
use hare_parse::{Parsed, parse_expr, parse_type};
use hare_tree::{Fault, Kind, Place, Stop, Suffix, Token, TokenKind, Tokens, Tree, Word};
use std::alloc::{AllocError, Global};
use std::test::Fail;

// A place in the first line of file 7.
fn place(column: u32) -> Place {
    Place {
        file: 7,
        line: 1,
        column,
    }
}

// The tokens of a short text, as file 7.
fn tokens_of(alloc: Global, text: &[u8]) -> Result<Tokens, Fail> {
    if text.len() > 1000 {
        return Err("a long text".into());
    }
    match tokens(alloc, 7, text) {
        Ok(found) => Ok(found),
        Err(_) => Err("a text without tokens".into()),
    }
}

// The same without End.
fn open_tokens(alloc: Global, text: &[u8]) -> Result<Tokens, Fail> {
    let mut found = tokens_of(alloc, text)?;
    found.drop_last();
    Ok(found)
}

// What is read of an expression, where memory is ample.
fn expression(alloc: Global, tokens: &Tokens, at: usize) -> Result<Parsed, Fault> {
    if tokens.len() <= at {
        return Err(none());
    }
    read(parse_expr(alloc, tokens, at))
}

// What is read of a type, where memory is ample.
fn type_in(alloc: Global, tokens: &Tokens) -> Result<Parsed, Fault> {
    if tokens.len() == 0 {
        return Err(none());
    }
    read(parse_type(alloc, tokens, 0))
}

// What is read, or the fault.
fn read(parsed: Result<Parsed, Stop<Fault>>) -> Result<Parsed, Fault> {
    match parsed {
        Ok(parsed) => Ok(parsed),
        Err(Stop::Fault(fault)) => Err(fault),
        Err(Stop::Memory) => Err(none()),
    }
}

// What stands for a fault where there is none.
fn none() -> Fault {
    fault(0, 0)
}

// A fault in the first line of file 7.
fn fault(number: u8, column: u32) -> Fault {
    Fault {
        number,
        place: place(column),
    }
}

// The place of a kid.
fn place_of(tree: &Tree, kid: usize) -> Place {
    match tree.kids.get(kid) {
        Some(kid) => kid.place,
        None => place(0),
    }
}

#[test]
fn a_tree_is_read_from_the_middle_of_a_list(rt: HostRuntime) -> Result<(), Fail> {
    let list = tokens_of(rt.alloc(), b";;f(a))")?;
    let Ok(Parsed { tree, next }) = expression(rt.alloc(), &list, 2) else {
        return Err("a fault".into());
    };
    assert_eq!(rt; next, 6);
    assert_eq!(rt; tree.place, place(4));
    assert_eq!(rt; place_of(&tree, 0), place(3));
    assert_eq!(rt; place_of(&tree, 1), place(5));
    // The comma that is not there stands at the start of the file.
    assert_eq!(rt; place_of(&tree, 2), place(1));
    let list = tokens_of(rt.alloc(), b";;a + )")?;
    assert!(rt; matches!(expression(rt.alloc(), &list, 2), Err(f) if f == fault(8, 7)));
    Ok(())
}

// How many tokens of a list without End an expression has, or its fault.
fn count(alloc: Global, text: &[u8]) -> Result<Result<usize, Fault>, Fail> {
    let list = open_tokens(alloc, text)?;
    Ok(expression(alloc, &list, 0).map(|p| p.next))
}

#[test]
fn a_list_may_end_without_end(rt: HostRuntime) -> Result<(), Fail> {
    assert!(rt; count(rt.alloc(), b"5")? == Ok(1));
    assert!(rt; count(rt.alloc(), b"a + b")? == Ok(3));
    assert!(rt; count(rt.alloc(), b"yield :a")? == Ok(3));
    assert!(rt; count(rt.alloc(), b"if (a) b")? == Ok(5));
    assert!(rt; count(rt.alloc(), b"return")? == Ok(1));
    let list = open_tokens(rt.alloc(), b"*int")?;
    assert!(rt; matches!(type_in(rt.alloc(), &list), Ok(p) if p.next == 2));
    Ok(())
}

// The fault stands at the last token.
#[test]
fn a_list_may_be_cut_off(rt: HostRuntime) -> Result<(), Fail> {
    assert!(rt; count(rt.alloc(), b"5 +")? == Err(fault(8, 3)));
    assert!(rt; count(rt.alloc(), b"(")? == Err(fault(8, 1)));
    assert!(rt; count(rt.alloc(), b"if (a)")? == Err(fault(8, 6)));
    assert!(rt; count(rt.alloc(), b"yield :a,")? == Err(fault(8, 9)));
    let list = open_tokens(rt.alloc(), b"a::")?;
    assert!(rt; matches!(type_in(rt.alloc(), &list), Err(f) if f == fault(8, 2)));
    Ok(())
}

// A string that has a number, as none has that is spelled.
fn odd(alloc: Global) -> Result<Token, AllocError> {
    Ok(Token {
        kind: TokenKind::Str,
        place: place(5),
        text: Word::copy(alloc, b"b")?,
        number: 1,
        suffix: Suffix::None,
    })
}

#[test]
fn a_string_with_a_number_is_no_string(rt: HostRuntime) -> Result<(), Fail> {
    let mut behind = open_tokens(rt.alloc(), b"\"a\"")?;
    behind.push(odd(rt.alloc())?)?;
    let Ok(Parsed { tree, next }) = expression(rt.alloc(), &behind, 0) else {
        return Err("a fault".into());
    };
    assert_eq!(rt; next, 1);
    assert!(rt; tree.kind == Kind::Str && tree.text.bytes() == b"a".as_slice());
    let mut alone = Tokens::new(rt.alloc());
    alone.push(odd(rt.alloc())?)?;
    assert!(rt; matches!(expression(rt.alloc(), &alone, 0), Err(f) if f == fault(8, 5)));
    Ok(())
}

// `a` in so many parentheses.
fn nested(alloc: Global, depth: usize) -> Result<Tokens, Fail> {
    let mut text = Vec::new(alloc);
    for _ in 0..depth {
        text.push(b'(')?;
    }
    text.push(b'a')?;
    for _ in 0..depth {
        text.push(b')')?;
    }
    tokens_of(alloc, text.as_slice())
}

#[test]
fn depth_counts_from_the_root(rt: HostRuntime) -> Result<(), Fail> {
    let list = nested(rt.alloc(), 265)?;
    assert!(rt; matches!(expression(rt.alloc(), &list, 10), Ok(p) if p.next == 521));
    assert!(rt; matches!(expression(rt.alloc(), &list, 9), Err(f) if f == fault(9, 266)));
    Ok(())
}
