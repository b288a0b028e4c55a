//! The store of the types, names and declarations of a program.

ghost use Rattle.std.specs.Prelude.{◌≡◌, ◌≢◌, ◌≤◌, ◌<◌, ◌+◌, ◌++◌, ◌∷◌, [], ℕ, List, length, slice_get, IfOk, IfSome, IsSome, IfNone, OnOk, OnErr, Some, None, option_map};
ghost use Rattle.hare_types.specs.declared.extent.Extent.{Extent as ExtentOf};
ghost use Rattle.hare_types.specs.Bases.{IsBaseOf};
ghost use Rattle.hare_types.specs.ByIds.{base_at, is_error_at, has_size_at, extent_at, field_at, tag_at};
ghost use Rattle.hare_types.specs.ByValue.{has_size, HoldsByValue};
ghost use Rattle.hare_types.specs.Kept.{LiesIn, told, IsBounded};
ghost use Rattle.hare_types.specs.Layout.{HasExtent};
ghost use Rattle.hare_types.specs.Later.{IsLater};
ghost use Rattle.hare_types.specs.Numbering.{IsNumbered};
ghost use Rattle.hare_types.specs.Rows.{tree_of, trees, IsWithin, IsReduced};
ghost use Rattle.hare_types.specs.Sound.{IsStore};
ghost use Rattle.hare_types.specs.Store.{Store, empty, tree_at, sized_of, definition_of, with_declared, Extends};
ghost use Rattle.hare_types.specs.Trees.{Tree, Same};
ghost use Rattle.hare_types.specs.Unions.{id_of};

use crate::declared::{Declared, set_definition};
use crate::extent::Extent;
use crate::fields::{FieldName, FieldPlaces, are_named, enter_if_new, reserve_fields};
use crate::id::TypeId;
use crate::kept::{Kept, base_at, extent_at, root_at};
use crate::marks::has_size;
use crate::measure::extent_over;
use crate::numbering::number;
use crate::places::Rows;
use crate::row::Row;
use crate::settle::{keep_if_new, settle};
use indexmap::{IndexMap, IndexSet};
use std::alloc::{AllocError, Global};
use std::hash::BuildHasherDefault;
use std::marker::Model;

/// The types of a program, each under one id, the spellings of names, each under one number, the declared types, and the list of
/// the types that have tags.
///
/// Beside each type its extent, its base and the places of its fields are kept, so that they are found in constant time.
///
/// A store that holds 2^32 - 1 names, types or listed types answers `AllocError` to one more.
#[derive(Drop)]
pub struct TypeStore {
    names: IndexSet<Vec<u8>>,
    rows: Rows,
    declared: IndexMap<u32, Declared>,
    listed: IndexSet<TypeId>,
    kept: Vec<Kept>,
    fields: FieldPlaces,
}

impl Model for TypeStore {
    ghost use Rattle.std.specs.Prelude.{map};
    ghost use Rattle.hare_types.specs.Store.{Store};
    ghost use Rattle.hare_types.specs.Whole.{IsWhole};

    ghost Value = { Store };

    ghost view = { λ a. record {
      names = map (λ v. v.items) a.names.keys;
      rows = a.rows.keys;
      declared = a.declared.entries;
      listed =
          a.listed.keys;
    } };

    ghost invariant = { λ a. IsWhole
        (record { names = map (λ v. v.items) a.names.keys; rows = a.rows.keys; declared = a.declared.entries; listed = a.listed.keys })
        a.kept.items a.fields.entries };
}

impl TypeStore {
    /// A store that holds nothing.
    pub fn new(alloc: Global) -> TypeStore
        ensures { result ≡ empty }
    {
        TypeStore {
            names: IndexSet::new(alloc),
            rows: Rows::with_hasher(alloc, BuildHasherDefault::new()),
            declared: IndexMap::new(alloc),
            listed: IndexSet::new(alloc),
            kept: Vec::new(alloc),
            fields: IndexMap::new(alloc),
        }
    }

    /// The number of the name that is spelled so: the same for equal spellings, and another for other ones. Nothing changes where
    /// memory is short.
    pub fn name(&mut self, spelling: &[u8]) -> Result<u32, AllocError>
        ensures numbered { IfOk result (λ n. IsNumbered self.old.names self.new.names spelling.now n) }
        ensures rest { OnOk result (self.new ≡ record self.old { names = self.new.names }) }
        ensures grows { Extends self.old self.new }
        ensures later { IsLater self.old self.new }
        ensures err { OnErr result (self.new ≡ self.old) }
    {
        if let Some(n) = self.find_name(spelling) {
            return Ok(n);
        }
        let mut owned = Vec::new(*self.names.allocator());
        owned.extend_from_slice(spelling)?;
        let n = number(&mut self.names, owned)?;
        Ok(n)
    }

    /// The number of the name that is spelled so, `None` where no name is.
    pub fn find_name(&self, spelling: &[u8]) -> Option<u32>
        ensures found { IfSome result (λ n. slice_get self.now.names n ≡ Some spelling.now) }
        ensures none { IfNone result ((n : ℕ) → slice_get self.now.names n ≢ Some spelling.now) }
    {
        match self.names.get_index_of(spelling) {
            Some(place) => Some(place as u32),
            None => None,
        }
    }

    /// Enters a declared type, and whether it has a size, before what it is defined to be is known. It was not
    /// entered before. Nothing changes where memory is short.
    pub fn declare(&mut self, decl: u32, sized: bool) -> Result<(), AllocError>
        requires { sized_of self.old decl ≡ None }
        ensures ok { OnOk result (self.new ≡ with_declared self.old decl sized) }
        ensures entered { OnOk result (sized_of self.new decl ≡ Some sized) }
        ensures grows { Extends self.old self.new }
        ensures later { IsLater self.old self.new }
        ensures err { OnErr result (self.new ≡ self.old) }
    {
        let fresh = Declared {
            sized,
            definition: None,
        };
        self.declared.insert(decl, fresh)?;
        Ok(())
    }

    /// Enters what a declared type is defined to be: a type of this store that has a size exactly where it was declared to have one, and that
    /// neither is nor holds by value that name. The name was declared, and not defined yet.
    ///
    /// The extents and bases that follow are entered. A type that was taken in before a name that it is or holds by value was defined waits
    /// for the first type whose extent is not known yet, and is looked at again only once more is known of that one: over all definitions
    /// the time is that of the types that wait and of the types that they hold.
    pub fn define(&mut self, decl: u32, t: TypeId)
        requires declared { IsSome (sized_of self.old decl) }
        requires fresh { definition_of self.old decl ≡ None }
        requires sized { IfSome (tree_at self.old t) (λ u. has_size self.old u ≡ sized_of self.old decl) }
        requires within { t < length self.old.rows }
        requires finite { IfSome (tree_at self.old t) (λ u. ¬ HoldsByValue self.old u decl) }
        ensures entered { definition_of self.new decl ≡ Some t }
        ensures others { (d : ℕ) → d ≢ decl → definition_of self.new d ≡ definition_of self.old d }
        ensures sized { (d : ℕ) → sized_of self.new d ≡ sized_of self.old d }
        ensures rest { self.new ≡ record self.old { declared = self.new.declared } }
        ensures grows { Extends self.old self.new }
        ensures later { IsLater self.old self.new }
    {
        set_definition(&mut self.declared, decl, t);
        settle(&self.rows, &self.declared, &mut self.kept, decl);
    }

    /// What a type is defined to be, `None` where nothing was entered.
    pub fn definition(&self, decl: u32) -> Option<TypeId>
        ensures value { result ≡ definition_of self.now decl }
        ensures sound { IsStore self.now }
    {
        match self.declared.get(&decl) {
            Some(entry) => entry.definition,
            None => None,
        }
    }

    /// Whether a declared type has a size, `None` where it is not declared.
    pub fn sized(&self, decl: u32) -> Option<bool>
        ensures { result ≡ sized_of self.now decl }
    {
        match self.declared.get(&decl) {
            Some(entry) => Some(entry.sized),
            None => None,
        }
    }

    /// How many types are declared.
    pub fn declarations(&self) -> usize
        ensures value { result ≡ length self.now.declared }
        ensures sound { IsStore self.now }
    {
        self.declared.len()
    }

    /// The id of a type: the same for equal types, and another for other ones. The row's ids are of this store, and the members of
    /// a union are at least two, ascend by id, and none of them is never or an unnamed union.
    ///
    /// A struct is taken in only where its fields have names of this store, and is else answered by `AllocError`. So is
    /// want of memory; nothing changes then.
    pub fn intern(&mut self, r: Row) -> Result<TypeId, AllocError>
        requires within { IsWithin (length self.old.rows) r }
        requires reduced { IsReduced self.old.rows r }
        ensures numbered { IfOk result (λ t. IsNumbered self.old.rows self.new.rows r t) }
        ensures id { IfOk result (λ t. (later : Store) → IsLater self.new later → id_of later r ≡ Some t) }
        ensures within { IfOk result (λ t. t < length self.new.rows) }
        ensures stands { IfOk result (λ t. tree_at self.new t ≡ Some (tree_of (trees self.old.rows) r)) }
        ensures once { IfOk result (λ t. (i : ℕ) (u : Tree) → tree_at self.new i ≡ Some u → Same u (tree_of (trees self.old.rows) r) →
            i ≡ t) }
        ensures kept { (i : ℕ) (u : Tree) → tree_at self.old i ≡ Some u → tree_at self.new i ≡ Some u }
        ensures rest { OnOk result (self.new ≡ record self.old { rows = self.new.rows }) }
        ensures grows { Extends self.old self.new }
        ensures later { IsLater self.old self.new }
        ensures err { OnErr result (self.new ≡ self.old) }
    {
        if !are_named(&r, self.names.len()) {
            return Err(AllocError);
        }
        let here = self.rows.len();
        self.kept.reserve(1)?;
        reserve_fields(&mut self.fields, &r)?;
        let place = number(&mut self.rows, r)?;
        keep_if_new(self.rows.as_slice(), &self.declared, &mut self.kept, here);
        enter_if_new(self.rows.as_slice(), &mut self.fields, here);
        Ok(TypeId::at(place))
    }

    /// The row of a type of this store.
    pub fn row(&self, t: TypeId) -> &Row
        requires { t < length self.now.rows }
        ensures row { slice_get self.now.rows t ≡ Some result.now }
        ensures sound { IsStore self.now }
    {
        &self.rows.as_slice()[t.index() as usize]
    }

    /// How many bytes a value of the type takes, and of what its address is a multiple. A size of more than 2^40 bytes is told as
    /// 2^40 + 1. `None` where the type is, or holds by value, a name that is not defined, or one that has no size. The time is
    /// constant.
    pub fn extent(&self, t: TypeId) -> Option<Extent>
        ensures value { result ≡ option_map told (extent_at self.now t) }
        ensures some { IfSome result (λ x. (y : ExtentOf) × LiesIn self.now t y × (x ≡ told y)) }
        ensures none { IfNone result ((y : ExtentOf) → ¬ LiesIn self.now t y) }
        ensures within { IfSome result (λ x. IsBounded x) }
        ensures sound { IsStore self.now }
    {
        extent_at(self.kept.as_slice(), t)
    }

    /// The same of the type of a row, whose ids are of this store: it need not be in the store itself. The time is that of the types in the
    /// row.
    pub fn row_extent(&self, r: &Row) -> Option<Extent>
        requires { IsWithin (length self.now.rows) r.now }
        ensures some { IfSome result (λ x. (y : ExtentOf) × HasExtent self.now (tree_of (trees self.now.rows) r.now) y × (x ≡ told y)) }
        ensures none { IfNone result ((y : ExtentOf) → ¬ HasExtent self.now (tree_of (trees self.now.rows) r.now) y) }
        ensures within { IfSome result (λ x. IsBounded x) }
        ensures sound { IsStore self.now }
    {
        extent_over(r, &self.declared, self.kept.as_slice())
    }

    /// What is left of a type once names and error marks are followed until neither is left. `None` where it comes to a name that is not
    /// defined. The time is constant.
    pub fn base(&self, t: TypeId) -> Option<TypeId>
        ensures value { result ≡ base_at self.now t }
        ensures some { IfSome result (λ b. IsBaseOf self.now t b) }
        ensures none { IfNone result ((b : ℕ) → ¬ IsBaseOf self.now t b) }
        ensures sound { IsStore self.now }
    {
        base_at(self.kept.as_slice(), t)
    }

    /// Whether the type is an error type: it bears an error mark, or names a type that does; of a name that is not defined this is not
    /// known, and the answer is no. The time is constant.
    pub fn is_error(&self, t: TypeId) -> bool
        ensures { result ≡ is_error_at self.now t }
    {
        match root_at(self.kept.as_slice(), t) {
            Some(root) => root.is_error,
            None => false,
        }
    }

    /// Whether values of the type have a size: never and opaque have none, an error type as much as the type that it marks, and a name as
    /// it was declared, which is known before it is defined; a name that is not declared has none. The time is that of the error marks that
    /// stand directly before one another.
    pub fn has_size(&self, t: TypeId) -> bool
        ensures { result ≡ has_size_at self.now t }
    {
        has_size(self.rows.as_slice(), &self.declared, t)
    }

    /// The place of the field of a struct that has the name of this number, counted from 0: of the first where there are several. `None`
    /// where the type is no struct, or has no such field; names and error marks are not followed. The time is constant.
    pub fn field(&self, t: TypeId, name: u32) -> Option<usize>
        ensures { result ≡ field_at self.now t name }
    {
        match self.fields.get(&FieldName { of: t, name }) {
            Some(place) => Some(*place),
            None => None,
        }
    }

    /// The tag of a type, counted from 1: its place in the list of the types that have tags, where it is put last unless it is there.
    /// The type is of this store. Nothing changes where memory is short.
    pub fn mention(&mut self, t: TypeId) -> Result<u32, AllocError>
        requires { t < length self.old.rows }
        ensures tag { IfOk result (λ n. tag_at self.new t ≡ Some n) }
        ensures numbered { IfOk result (λ n. (k : ℕ) × (n ≡ k + 1) × IsNumbered self.old.listed self.new.listed t k) }
        ensures rest { OnOk result (self.new ≡ record self.old { listed = self.new.listed }) }
        ensures grows { Extends self.old self.new }
        ensures later { IsLater self.old self.new }
        ensures err { OnErr result (self.new ≡ self.old) }
    {
        let place = number(&mut self.listed, t)?;
        Ok(place + 1)
    }

    /// Empties the list of the types that have tags, and leaves all else.
    pub fn unmention(&mut self)
        ensures emptied { self.new ≡ record self.old { listed = [] } }
        ensures later { IsLater self.old self.new }
    {
        self.listed.clear();
    }

    /// The tag of a type, `None` where it has none.
    pub fn tag(&self, t: TypeId) -> Option<u32>
        ensures value { result ≡ tag_at self.now t }
        ensures none { IfNone result ((k : ℕ) → slice_get self.now.listed k ≢ Some t) }
    {
        match self.listed.get_index_of(&t) {
            Some(place) => Some(place as u32 + 1),
            None => None,
        }
    }
}
