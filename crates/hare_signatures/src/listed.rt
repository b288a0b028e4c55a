//! The types that are written in a declaration, as a list.

ghost use Rattle.std.specs.Prelude.{◌≡◌, [], ◌∷◌, ◌++◌, map, IfOk, OnOk};
ghost use Rattle.hare_modules.specs.Uses as uses;
ghost use Rattle.hare_signatures.specs.Listed as spec;
ghost use Rattle.hare_tree.specs.Shape.{is_none};
ghost use Rattle.hare_whole.specs.Listing as listing;

use hare_tree::{Kids, Kind, Tree};
use std::alloc::{AllocError, Global};

/// A type that is written in a declaration.
#[derive(Clone, Copy)]
pub(crate) struct Written<'t> {
    /// Whether it is the type of a binding, which has to have a size.
    pub(crate) bound: bool,
    pub(crate) tree: &'t Tree,
}

/// The types that are written in a declaration, in the order of the source: the type of a type, those of a function's parameters and its
/// result, the type of a def or a global where it is written.
pub(crate) fn written_types<'t>(
    alloc: Global,
    decl: &'t Tree,
) -> Result<Vec<Written<'t>>, AllocError>
    ensures { IfOk result (λ ws. map spec.written_of ws.items ≡ listing.written_types decl.now) }
{
    let mut written = Vec::new(alloc);
    push_types(&mut written, decl)?;
    Ok(written)
}

/// Puts the types of a declaration behind others.
fn push_types<'t>(written: &mut Vec<Written<'t>>, decl: &'t Tree) -> Result<(), AllocError>
    ensures { OnOk result (map spec.written_of written.new.items ≡ map spec.written_of written.old.items ++
        listing.written_types decl.now) }
{
    let tree = kid(decl, 2);
    match decl.kind {
        Kind::TypeDecl => {
            push_one(written, false, tree)?;
            Ok(())
        }
        Kind::Fn => {
            push_params(written, &tree.kids)?;
            push_one(written, false, kid(decl, 3))?;
            Ok(())
        }
        _ => {
            push_bound(written, tree)?;
            Ok(())
        }
    }
}

/// Puts a type behind others.
fn push_one<'t>(
    written: &mut Vec<Written<'t>>,
    bound: bool,
    tree: &'t Tree,
) -> Result<(), AllocError>
    ensures { OnOk result (map spec.written_of written.new.items ≡ map spec.written_of written.old.items ++
        spec.one_written bound tree.now) }
{
    written.push(Written { bound, tree })?;
    Ok(())
}

/// Puts the type of a def or a global behind others, where it is written.
fn push_bound<'t>(written: &mut Vec<Written<'t>>, tree: &'t Tree) -> Result<(), AllocError>
    ensures { OnOk result (map spec.written_of written.new.items ≡ map spec.written_of written.old.items ++ spec.type_bound tree.now) }
{
    if is_none(tree.kind) {
        return Ok(());
    }
    push_one(written, true, tree)?;
    Ok(())
}

/// Puts the types of the parameters among some trees behind others.
fn push_params<'t>(written: &mut Vec<Written<'t>>, params: &'t Kids) -> Result<(), AllocError>
    ensures { OnOk result (map spec.written_of written.new.items ≡ map spec.written_of written.old.items ++ spec.types_among params.now) }
{
    for i in 0..params.len() {
        let Some(param) = params.get(i) else {
            unreachable!();
        };
        push_param(written, param)?;
    }
    Ok(())
}

/// Puts the type of a tree behind others, if it is a parameter.
fn push_param<'t>(written: &mut Vec<Written<'t>>, param: &'t Tree) -> Result<(), AllocError>
    ensures { OnOk result (map spec.written_of written.new.items ≡ map spec.written_of written.old.items ++
        spec.types_among (param.now ∷ [])) }
{
    if !is_param(param.kind) {
        return Ok(());
    }
    push_one(written, true, kid(param, 0))?;
    Ok(())
}

/// The kid with so many kids before it; a tree that has no such kid stands for it.
fn kid(t: &Tree, i: usize) -> &Tree
    ensures { result.now ≡ uses.kid t.now i }
{
    match t.kids.get(i) {
        Some(k) => k,
        None => t,
    }
}

/// Whether a tree is a parameter.
fn is_param(k: Kind) -> bool
    ensures { result ≡ listing.is_param k }
{
    matches!(k, Kind::Param)
}

/// Whether a tree stands in the place of what is not there.
fn is_none(k: Kind) -> bool
    ensures { result ≡ is_none k }
{
    matches!(k, Kind::None)
}
