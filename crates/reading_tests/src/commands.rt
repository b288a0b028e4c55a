//! A command and lines of faults, with ample memory.

use harec_words::{Command, Span, command_of, fault_text, law_one_command};
use hx_base::Text;
use std::test::Fail;

#[test]
fn words_are_named_by_their_places(rt: HostRuntime) -> Result<(), Fail> {
    law_one_command();
    let mut words = Vec::new(rt.alloc());
    for word in ["run", "--units", "5", "x.ha", "a/y.ha", "--", "z", "--"] {
        words.push(Text::copy(rt.alloc(), word)?)?;
    }
    let files = Span { from: 3, to: 5 };
    let args = Span { from: 6, to: 8 };
    let command = command_of(words.as_slice());
    assert_eq!(rt; command, Some(Command::Run(5, files, args)));
    assert_eq!(rt; command_of(&words[1..]), None);
    Ok(())
}

#[test]
fn a_line_has_the_name_of_its_number(rt: HostRuntime) -> Result<(), Fail> {
    let path = Text::copy(rt.alloc(), "./a/x.ha")?;
    let line = fault_text(rt.alloc(), &path, b'E', 25, 12, 3)?;
    assert_eq!(rt;
        line.bytes(),
        b"./a/x.ha:12:3: E25 NotAssignable\n".as_slice()
    );
    let line = fault_text(rt.alloc(), &path, b'I', 13, 1, 1)?;
    assert_eq!(rt; line.bytes(), b"./a/x.ha:1:1: I13 NotPrinted\n".as_slice());
    let line = fault_text(rt.alloc(), &path, b'U', 8, u64::MAX, 9)?;
    assert_eq!(rt;
        line.bytes(),
        b"./a/x.ha:18446744073709551615:9: U8\n".as_slice()
    );
    Ok(())
}
