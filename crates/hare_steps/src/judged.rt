//! A table of which declarations have been judged.

ghost use Rattle.std.specs.Prelude.{◌≡◌, false, replicate, IfOk};
ghost use Rattle.hare_steps.specs.Taken as spec;

use std::alloc::{AllocError, Global};

/// Of so many declarations none has been judged.
pub(crate) fn none_judged(alloc: Global, count: usize) -> Result<Vec<bool>, AllocError>
    ensures { IfOk result (λ js. js.items ≡ replicate count false) }
{
    let mut judged = Vec::new(alloc);
    for _ in 0..count {
        judged.push(false)?;
    }
    Ok(judged)
}

/// Whether a declaration has been judged.
pub(crate) fn is_judged(judged: &[bool], decl: u32) -> bool
    ensures { result ≡ spec.is_judged judged.now decl }
{
    match judged.get(decl as usize) {
        Some(mark) => *mark,
        None => false,
    }
}

/// Notes that a declaration has been judged.
pub(crate) fn set_judged(judged: &mut Vec<bool>, decl: u32)
    ensures { judged.new.items ≡ spec.with_judged judged.old.items decl }
{
    let place = decl as usize;
    if place < judged.len() {
        judged[place] = true;
    }
}

/// The same of some declarations.
pub(crate) fn set_all_judged(judged: &mut Vec<bool>, decls: &[u32])
    ensures { judged.new.items ≡ spec.with_all_judged judged.old.items decls.now }
{
    for decl in decls {
        set_judged(judged, *decl);
    }
}
