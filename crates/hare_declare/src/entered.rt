//! Types that are entered into the store.

ghost use Rattle.std.specs.Prelude.{◌≡◌, ◌<◌, ◌^◌, [], length, None, OnOk};
ghost use Rattle.hare_types.specs.Sound.{IsStore};
ghost use Rattle.hare_types.specs.Store.{sized_of, definition_of};
ghost use Rattle.hare_declare.specs.Entered as spec;
ghost use Rattle.hare_rules.specs.Words.{nomem};
ghost use Rattle.hare_whole.specs.Listing.{DefinesNomem};

use crate::outline::Outline;
use hare_graph::label_of;
use hare_modules::NOMEM;
use hare_types::{Row, Scalar, TypeStore};
use std::alloc::AllocError;

/// Declares the types among these declarations, in their order: those with a label have no size.
pub fn enter_types(
    s: &mut TypeStore,
    outlines: &[Outline],
    lacking: &[Option<usize>],
) -> Result<(), AllocError>
    requires fresh { s.old.declared ≡ [] }
    requires few { length outlines.now < 2 ^ 32 }
    ensures entered { OnOk result (spec.AreEntered s.new outlines.now lacking.now (length outlines.now)) }
    ensures empty { OnOk result (s.new.listed ≡ s.old.listed) }
{
    for decl in 0..outlines.len() {
        let is_sized = label_of(lacking, decl).is_none();
        enter(s, decl as u32, outlines[decl].is_type, is_sized)?;
    }
    Ok(())
}

/// Declares a type, with or without a size. What is no type is passed over.
fn enter(s: &mut TypeStore, decl: u32, is_type: bool, is_sized: bool) -> Result<(), AllocError>
    requires { sized_of s.old decl ≡ None }
    ensures { OnOk result (spec.Enters decl is_type is_sized s.old s.new) }
{
    if is_type {
        s.declare(decl, is_sized)?;
    }
    Ok(())
}

/// Declares the refusal of memory, and defines it as `!void`.
pub fn enter_nomem(s: &mut TypeStore) -> Result<(), AllocError>
    requires fresh { sized_of s.old nomem ≡ None }
    ensures sound { OnOk result (IsStore s.new) }
    ensures kept { OnOk result (spec.KeepsBeside nomem s.old s.new) }
    ensures defined { OnOk result (DefinesNomem s.new) }
    ensures empty { OnOk result (s.new.listed ≡ s.old.listed) }
{
    s.declare(NOMEM, true)?;
    let void = s.intern(Row::Scalar(Scalar::Void))?;
    let refusal = s.intern(Row::Error(void))?;
    s.define(NOMEM, refusal);
    Ok(())
}
