//! What is known before a body.

ghost use Rattle.std.specs.Prelude.{◌≡◌, ◌+◌, [], ◌++◌, false, map, replicate, sum_by, IfOk, OnOk};
ghost use Rattle.hare_tree.specs.Node.{nodes_of};
ghost use Rattle.hare_typed.specs.Bindings as spec;
ghost use Rattle.hare_typed.specs.Erased.{heads_each};
ghost use Rattle.hare_flow.specs.Seen.{entry_of};
ghost use Rattle.hare_rules.specs.Context.{Later};
ghost use Rattle.hare_whole.specs.Declared as whole;
ghost use Rattle.hare_whole.specs.Parts.{bindings_of};
ghost use Rattle.hare_check.specs.Beginnings.{known_params, told_params};

use hare_flow::Binding;
use hare_rules::{DeclType, Local, Locals};
use hare_tree::{Kids, Kind, Tree};
use hare_types::TypeId;
use std::alloc::{AllocError, Global};

/// One more than a number; a number that is too large is answered as want of memory.
fn one_more(n: usize) -> Result<usize, AllocError>
    ensures { IfOk result (λ m. m ≡ n + 1) }
{
    match n.checked_add(1) {
        Some(m) => Ok(m),
        None => Err(AllocError),
    }
}

/// Whether a tree of this kind is a binding.
fn begins_binding(k: Kind) -> bool
    ensures { result ≡ spec.begins_binding k }
{
    matches!(
        k,
        Kind::Param | Kind::Let | Kind::Const | Kind::Binding | Kind::PatternLet
    )
}

/// How many bindings begin in a tree, in front of which so many were counted.
#[cycle(bindings)]
fn count_in(n: usize, t: &Tree) -> Result<usize, AllocError>
    ensures { IfOk result (λ m. m ≡ n + bindings_of t.now) }
{
    if begins_binding(t.kind) {
        return count_in_each(one_more(n)?, &t.kids);
    }
    count_in_each(n, &t.kids)
}

/// How many bindings begin in some trees, in front of which so many were counted.
#[cycle(bindings)]
fn count_in_each(n: usize, kids: &Kids) -> Result<usize, AllocError>
    ensures { IfOk result (λ m. m ≡ n + sum_by (λ h. spec.own_bindings h.kind) (heads_each (nodes_of kids.now))) }
{
    let mut counted = n;
    for i in 0..kids.len() {
        let Some(kid) = kids.get(i) else {
            unreachable!();
        };
        counted = count_in(counted, kid)?;
    }
    Ok(counted)
}

/// What is known of the bindings of a declaration, and what judges are told of each.
#[derive(Drop)]
pub(crate) struct Beginning {
    pub(crate) bindings: Vec<Binding>,
    pub(crate) told: Locals,
}

impl Beginning {
    /// Of no bindings.
    fn new(alloc: Global) -> Beginning
        ensures bindings { result.bindings.items ≡ [] }
        ensures told { result.told ≡ [] }
    {
        Beginning {
            bindings: Vec::new(alloc),
            told: Locals::new(alloc),
        }
    }

    /// The parameters, which have these types and may be assigned to.
    fn push_params(&mut self, types: &[TypeId]) -> Result<(), AllocError>
        ensures bindings { OnOk result (map entry_of self.new.bindings.items ≡ map entry_of self.old.bindings.items ++
            known_params types.now) }
        ensures told { OnOk result (self.new.told ≡ self.old.told ++ told_params types.now) }
    {
        for i in 0..types.len() {
            let ty = types[i];
            self.bindings
                .push(Binding::Known(Local { ty, mutable: true }))?;
            self.told.push(Local { ty, mutable: true })?;
        }
        Ok(())
    }

    /// So many bindings of which nothing is known; judges are told this type, which says nothing.
    fn push_later(&mut self, count: usize, ty: TypeId) -> Result<(), AllocError>
        ensures bindings { OnOk result (map entry_of self.new.bindings.items ≡ map entry_of self.old.bindings.items ++
            replicate count Later) }
        ensures told { OnOk result (self.new.told ≡ self.old.told ++ replicate count (record { ty = ty; mutable = false })) }
    {
        for _ in 0..count {
            self.bindings.push(Binding::Later)?;
            self.told.push(Local { ty, mutable: false })?;
        }
        Ok(())
    }
}

/// What is known before the body of this function.
pub(crate) fn before_body(alloc: Global, d: &DeclType, body: &Tree) -> Result<Beginning, AllocError>
    ensures bindings { IfOk result (λ b. map entry_of b.bindings.items ≡ known_params d.now.params ++ whole.unknown_locals body.now) }
    ensures told { IfOk result (λ b. b.told ≡ told_params d.now.params ++
        replicate (bindings_of body.now) (record { ty = d.now.ty; mutable = false })) }
{
    let mut known = Beginning::new(alloc);
    known.push_params(d.params.as_slice())?;
    let count = count_in(0, body)?;
    known.push_later(count, d.ty)?;
    Ok(known)
}

/// What is known before the value of a declaration: nothing of any binding. Judges are told this type of each, which says nothing.
pub(crate) fn before_value(alloc: Global, ty: TypeId, value: &Tree) -> Result<Beginning, AllocError>
    ensures bindings { IfOk result (λ b. map entry_of b.bindings.items ≡ whole.unknown_locals value.now) }
    ensures told { IfOk result (λ b. b.told ≡ replicate (bindings_of value.now) (record { ty = ty; mutable = false })) }
{
    let mut known = Beginning::new(alloc);
    let count = count_in(0, value)?;
    known.push_later(count, ty)?;
    Ok(known)
}
