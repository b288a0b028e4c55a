//! Where the trees of a file stand, and lists of tokens that no text has.

ghost use Rattle.std.specs.Prelude.{◌≡◌};

use hare_decl::{parse_file, parse_source};
use hare_tree::{Fault, FileTree, Kids, Kind, Place, Stop, Suffix, Token, TokenKind, Tokens, Word};
use std::alloc::Global;
use std::test::Fail;

// Whether the trees are one of this kind, at the start of this line of file 3.
fn is_one(trees: &Kids, kind: Kind, line: u32) -> bool {
    let place = Place {
        file: 3,
        line,
        column: 1,
    };
    match trees.get(0) {
        Some(tree) => trees.len() == 1 && tree.kind == kind && tree.place == place,
        None => false,
    }
}

#[test]
fn a_file_has_imports_and_declarations(rt: HostRuntime) -> Result<(), Fail> {
    match parse_source(rt.alloc(), 3, b"use rt;\nlet x = 1;\n") {
        Ok(tree) => {
            assert!(rt; is_one(&tree.uses, Kind::Use, 1));
            assert!(rt; is_one(&tree.decls, Kind::GlobalLet, 2));
        }
        Err(_) => assert!(rt; false),
    }
    Ok(())
}

// A token of file 3 with no text.
fn token(alloc: Global, kind: TokenKind, column: u32) -> Token
    ensures { result.place.file ≡ 3 }
{
    Token {
        kind,
        place: Place {
            file: 3,
            line: 1,
            column,
        },
        text: Word::new(alloc),
        number: 0,
        suffix: Suffix::None,
    }
}

// The column of the syntax fault of a list of tokens.
fn column_of(answer: Result<FileTree, Stop<Fault>>) -> Option<u32> {
    match answer {
        Err(Stop::Fault(Fault { number: 8, place })) => Some(place.column),
        _ => None,
    }
}

#[test]
fn lists_without_end_have_a_fault(rt: HostRuntime) -> Result<(), Fail> {
    let none = Tokens::new(rt.alloc());
    assert_eq!(rt; column_of(parse_file(rt.alloc(), 3, &none)), Some(1));
    Ok(())
}

#[test]
fn nothing_stands_behind_end(rt: HostRuntime) -> Result<(), Fail> {
    let a = rt.alloc();
    let mut two = Tokens::new(a);
    two.push(token(a, TokenKind::End, 5))?;
    two.push(token(a, TokenKind::End, 7))?;
    assert_eq!(rt; column_of(parse_file(a, 3, &two)), Some(7));
    Ok(())
}

#[test]
fn a_list_that_is_cut_off_has_a_fault_at_its_last_token(rt: HostRuntime) -> Result<(), Fail> {
    let a = rt.alloc();
    let mut cut = Tokens::new(a);
    let mut word = token(a, TokenKind::Keyword, 5);
    word.text = Word::copy(a, b"use")?;
    cut.push(word)?;
    assert_eq!(rt; column_of(parse_file(a, 3, &cut)), Some(5));
    Ok(())
}
