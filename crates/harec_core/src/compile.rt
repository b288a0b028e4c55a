//! From the bytes of checked files to the text of their program.

ghost use Rattle.std.specs.Prelude.{◌≡◌, [], ◌∷◌, IfOk, IfErr, OnOk, OnErr, MatchOption, MatchBool};
ghost use Rattle.il_code.specs.declared.types.Module.{Module};
ghost use Rattle.hare_blocks.specs.Class.{IsNoSource};
ghost use Rattle.harec_core.specs.Answers.{AreNotOfClass};
ghost use Rattle.harec_core.specs.Stages.{IsModuleOf, IsTextOf, IsBuilt, IsBuildStop};

use hare_blocks::read;
use hare_sources::Sources;
use hare_tree::{Fault, Place};
use harec_check::{Stopped, refused};
use hx_base::{Bytes, Text};
use il_code::{Module, law_input, print};
use il_emit::emit;
use low_blocks::lower;
use std::alloc::{AllocError, Global};

/// The fault of a program that is not compiled yet: E49 at the start of its first file.
const NOT_BUILT: Fault = Fault {
    number: 49,
    place: Place {
        file: 0,
        line: 1,
        column: 1,
    },
};

/// Makes the text of the program of these files. Today they have to be one, of the class; else the fault is E49, and no text is made.
pub fn build(alloc: Global, paths: &[Text], srcs: &Sources, text: &mut Bytes) -> Result<(), Stopped>
    requires empty { text.old ≡ [] }
    ensures ok { OnOk result ((m : Module) × IsBuilt srcs.now text.new m) }
    ensures err { IfErr result (IsBuildStop paths.now srcs.now) }
    ensures untouched { OnErr result (text.new ≡ []) }
{
    match sole(srcs) {
        Some(source) => build_one(alloc, paths, source, text),
        None => Err(refused(alloc, paths, NOT_BUILT)),
    }
}

/// Makes the text of the program of one file.
fn build_one(alloc: Global, paths: &[Text], source: &Bytes, text: &mut Bytes) -> Result<(), Stopped>
    requires empty { text.old ≡ [] }
    ensures ok { OnOk result ((m : Module) × IsTextOf source.now text.new m) }
    ensures err { IfErr result (IsBuildStop paths.now (source.now ∷ [])) }
    ensures untouched { OnErr result (text.new ≡ []) }
{
    if make_text(alloc, source.bytes(), text)? {
        Ok(())
    } else {
        Err(refused(alloc, paths, NOT_BUILT))
    }
}

/// The bytes of the one file, if there is one and no other.
fn sole(srcs: &Sources) -> Option<&Bytes>
    ensures { MatchOption result (AreNotOfClass srcs.now) (λ source. srcs.now ≡ source.now ∷ []) }
{
    if srcs.len() == 1 { srcs.get(0) } else { None }
}

/// Makes the text of a file's program. False, and no text, where the file is not of the class.
fn make_text(alloc: Global, source: &[u8], text: &mut Bytes) -> Result<bool, AllocError>
    requires { text.old ≡ [] }
    ensures ok { IfOk result (λ made. MatchBool made
        ((m : Module) × IsTextOf source.now text.new m)
        (IsNoSource source.now × (text.new ≡ []))) }
    ensures err { OnErr result (text.new ≡ []) }
{
    let Some(module) = module_of(alloc, source)? else {
        return Ok(false);
    };
    *text = print(alloc, &module)?;
    Ok(true)
}

// The module of a file's program. None: the file is not of the class.
fn module_of(alloc: Global, source: &[u8]) -> Result<Option<Module>, AllocError>
    ensures { IfOk result (λ o. MatchOption o (IsNoSource source.now) (λ m. IsModuleOf source.now m)) }
{
    let Some(program) = read(alloc, source)? else {
        return Ok(None);
    };
    let flat = lower(alloc, &program)?;
    // A run depends on its input by what it takes alone, and this one takes nothing.
    law_input();
    let module = emit(alloc, &flat)?;
    Ok(Some(module))
}
