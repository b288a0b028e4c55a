//! The list of the types that have tags, made anew.

ghost use Rattle.std.specs.Prelude.{◌≡◌, ◌++◌, fold, IfOk, OnOk};
ghost use Rattle.hare_whole.specs.Tags.{tag_list};
ghost use Rattle.hare_tags.specs.Lists as spec;

use crate::allocated::push_body;
use crate::written::push_written_among;
use hare_typed::TypedKids;
use hare_types::{TypeId, TypeStore};
use std::alloc::{AllocError, Global};

/// Empties the list of the types that have tags and makes it anew, of the declarations of a finished program: the types that are written as
/// members of unions, in the order of files and source; then for each allocation and append of the bodies of functions, in check order, the
/// other member of its union and `rt::nomem`; each once, where it stands first. All else of the store stays.
///
/// Fails for want of memory, and where a type of the trees is not in the store, comes to a name that is not defined, or is that of an
/// allocation and no union with `rt::nomem`; in the trees of a finished program there is none of these. Takes time in proportion to the
/// trees and the members of the unions.
pub fn list_tags(alloc: Global, s: &mut TypeStore, decls: &TypedKids) -> Result<(), AllocError>
    ensures ok { OnOk result (s.new ≡ record s.old { listed = tag_list s.old decls.now }) }
    ensures rest { s.new ≡ record s.old { listed = s.new.listed } }
{
    let types = types_of(alloc, s, decls)?;
    s.unmention();
    mention_all(s, &types)
}

/// The types that get tags, in their order; one may stand there more than once.
fn types_of(alloc: Global, s: &TypeStore, decls: &TypedKids) -> Result<Vec<TypeId>, AllocError>
    ensures { IfOk result (λ ts. ts.items ≡ spec.types_of s.now decls.now) }
{
    let mut types = Vec::new(alloc);
    push_written_among(&mut types, s, false, decls)?;
    for i in 0..decls.len() {
        let Some(decl) = decls.get(i) else {
            return Ok(types);
        };
        push_body(&mut types, s, decl)?;
    }
    Ok(types)
}

/// Puts these types last in the list of those that have tags, each where it is not listed yet.
fn mention_all(s: &mut TypeStore, types: &[TypeId]) -> Result<(), AllocError>
    ensures ok { OnOk result (s.new ≡ record s.old { listed = fold spec.with_tag s.old.listed types.now }) }
    ensures rest { s.new ≡ record s.old { listed = s.new.listed } }
{
    for t in types {
        mention(s, *t)?;
    }
    Ok(())
}

/// Puts a type last in the list of those that have tags, where it is not listed yet.
fn mention(s: &mut TypeStore, t: TypeId) -> Result<(), AllocError>
    ensures ok { OnOk result (s.new ≡ record s.old { listed = spec.with_tag s.old.listed t }) }
    ensures rest { s.new ≡ record s.old { listed = s.new.listed } }
{
    if s.base(t).is_none() {
        return Err(AllocError);
    }
    s.mention(t)?;
    Ok(())
}
