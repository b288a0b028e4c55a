//! The line of a fault.

ghost use Rattle.std.specs.Prelude.{◌≡◌, ◌++◌, map, IsTrue, IfOk, OnOk};
ghost use Rattle.std.specs.Option.{option_copied};
ghost use Rattle.harec_words.specs.Faults.{has_line, fault_line, naming};
ghost use Rattle.harec_words.specs.Faults as spec;

use hx_base::Text;
use std::alloc::{AllocError, Global};

/// The names of the language's faults, from E1 on.
const LANGUAGE_FAULTS: [&str; 49] = [
    "FileTooLarge",
    "SourcesTooLarge",
    "NotUtf8",
    "BadByte",
    "BadEscape",
    "Unterminated",
    "NumberTooLarge",
    "Syntax",
    "TooDeep",
    "LeftOut",
    "UnknownModule",
    "Duplicate",
    "Unknown",
    "NotExported",
    "UnknownMember",
    "ModuleCycle",
    "InfiniteType",
    "TypeTooLarge",
    "EmptyUnion",
    "UnionTooWide",
    "NotConstant",
    "OutOfRange",
    "ConstantCycle",
    "BadLength",
    "NotAssignable",
    "NotCastable",
    "OperandMismatch",
    "NotAPlace",
    "NotMutable",
    "WrongArity",
    "NotCallable",
    "NoField",
    "NotIndexable",
    "Fields",
    "NotTagged",
    "NotMember",
    "NotExhaustive",
    "DuplicateCase",
    "BranchMismatch",
    "BadLabel",
    "DeferEscape",
    "NoErrorMember",
    "ErrorNotReturned",
    "ErrorDropped",
    "MissingReturn",
    "MainShape",
    "FrameTooLarge",
    "ProgramTooLarge",
    "NotBuilt",
];

/// The names of the faults of a text of the intermediate language, from I1 on.
const TEXT_FAULTS: [&str; 13] = [
    "TooLarge",
    "BadByte",
    "Syntax",
    "LeftOut",
    "Duplicate",
    "UnknownLabel",
    "UnknownTemporary",
    "ClassMismatch",
    "UnknownSymbol",
    "PhiPlace",
    "JumpToStart",
    "NumberRange",
    "NotPrinted",
];

/// The line of the log for a fault at a place of the file that the path names, with its line feed: `PATH:LINE:COLUMN: E25 NotAssignable`.
/// An undefined act has no name: `PATH:LINE:COLUMN: U1`.
///
/// The letter is `E` with a number from 1 to 49 for a fault of the language, `I` with one from 1 to 13 for a fault of a text of the
/// intermediate language, and `U` with one from 1 to 8 for an undefined act.
pub fn fault_text(
    alloc: Global,
    path: &Text,
    letter: u8,
    number: u8,
    line: u64,
    column: u64,
) -> Result<Text, AllocError>
    requires { IsTrue (has_line letter number) }
    ensures { IfOk result (λ t. t ≡ fault_line path.now letter number line column) }
{
    let mut text = place_text(alloc, path, line, column)?;
    text.push(b':')?;
    text.push(b' ')?;
    text.push(letter)?;
    text.push_decimal(i128::from(number))?;
    push_name(alloc, &mut text, letter, number)?;
    text.push(b'\n')?;
    Ok(text)
}

/// A path, a line and a column.
fn place_text(alloc: Global, path: &Text, line: u64, column: u64) -> Result<Text, AllocError>
    ensures { IfOk result (λ t. t ≡ spec.place_text path.now line column) }
{
    let mut text = Text::new(alloc);
    text.append(path)?;
    text.push(b':')?;
    text.push_decimal(i128::from(line))?;
    text.push(b':')?;
    text.push_decimal(i128::from(column))?;
    Ok(text)
}

/// Puts a blank and the name of a fault at the end; nothing for what has no name.
fn push_name(alloc: Global, text: &mut Text, letter: u8, number: u8) -> Result<(), AllocError>
    ensures { OnOk result (text.new ≡ text.old ++ naming (spec.name_of letter number)) }
{
    if let Some(name) = name_of(letter, number) {
        text.push(b' ')?;
        text.append(&Text::copy(alloc, name)?)?;
    }
    Ok(())
}

/// The name of a fault, if it has one.
fn name_of(letter: u8, number: u8) -> Option<&'static str>
    ensures { option_copied result ≡ spec.name_of letter number }
{
    match letter {
        b'E' => numbered(&LANGUAGE_FAULTS, number),
        b'I' => numbered(&TEXT_FAULTS, number),
        _ => None,
    }
}

/// The name with this number, counted from 1.
fn numbered(names: &[&'static str], number: u8) -> Option<&'static str>
    ensures { option_copied result ≡ spec.numbered (map (λ name. name.now) names.now) number }
{
    let place = usize::from(number).checked_sub(1)?;
    names.get(place).copied()
}
