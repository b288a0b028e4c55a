//! Typed trees, which contracts see as plain data without addresses.

ghost use Rattle.std.specs.Prelude.{◌≡◌, ◌≤◌, [], ◌∷◌, ◌++◌, length, slice_get, IfSome, IfNone, OnOk, OnErr};

mod coats;

use crate::constant::Const;
pub use coats::coat;
use hare_tree::{Kind, Meaning, Place, Suffix, Word};
use hare_types::{Coercion, Ty};
use std::alloc::{AllocError, Global};
use std::marker::Model;

/// A list of typed trees in the order of the source.
#[derive(Drop)]
#[cycle(typed)]
pub struct TypedKids {
    trees: Vec<Typed>,
}

impl Model for TypedKids {
    ghost use Rattle.std.specs.Prelude.{List};
    ghost use Rattle.std.specs.Coded.{coded_list, codes};
    ghost use Rattle.hare_tree.specs.contracts.kind.Kind as k;
    ghost use Rattle.hare_tree.specs.contracts.place.Place as p;
    ghost use Rattle.hare_tree.specs.contracts.token.Suffix as s;
    ghost use Rattle.hare_tree.specs.contracts.token.Meaning as m;
    ghost use Rattle.hare_types.specs.contracts.coercion.Ty as t;
    ghost use Rattle.hare_types.specs.contracts.coercion.Coercion as c;
    ghost use Rattle.hare_typed.specs.contracts.constant.Const as v;
    ghost use Rattle.hare_typed.specs.Typed.{TypedNode, sizes_of, typed_nodes, typed_code, most_le-sizes_of};

    ghost Value = { List TypedNode };

    ghost coded = { coded_list (typed_code (Prim.hlevel (codes, k.the_row.coded, p.the_row.coded, s.the_row.coded))
        (Prim.hlevel (codes, t.the_row.coded, c.the_row.coded, m.the_row.coded, v.the_row.coded))) };

    ghost view = { λ a. a.trees.items };

    ghost size = { λ ts. sizes_of (typed_nodes ts) };

    ghost use Rattle.std.proofs.Common.{arith};

    ghost size_decreases = { λ a h. Prim.omega (arith, most_le-sizes_of a.trees.items) };
}

/// A tree with what checking found of each of its nodes.
#[derive(Drop)]
#[cycle(typed)]
pub struct Typed {
    /// The value of a number or of a rune, and 7 for an abort that stands for a failed `!`; else 0.
    pub number: u128,
    /// The type of what the node gives, before its coercion.
    pub ty: Ty,
    /// What becomes of that at the node's site.
    pub coerce: Coercion,
    /// The node's constant, where one stands.
    pub value: Const,
    /// The parts, as the form has them. A part that is not there is a tree of kind None.
    pub kids: TypedKids,
    /// What the form's own token says: a name, a path, an operator, the bytes of a string; else nothing.
    pub text: Word,
    /// What a path means.
    pub meaning: Meaning,
    /// The form's operator, or else its first token, in the source.
    pub place: Place,
    /// The node's number in its declaration. `docs/TREES.md` says which nodes are numbered; the others have 0.
    pub node: u32,
    /// The form.
    pub kind: Kind,
    /// The suffix of a number; else None.
    pub suffix: Suffix,
}

impl Model for Typed {
    ghost use Rattle.std.specs.Coded.{codes};
    ghost use Rattle.hare_tree.specs.contracts.kind.Kind as k;
    ghost use Rattle.hare_tree.specs.contracts.place.Place as p;
    ghost use Rattle.hare_tree.specs.contracts.token.Suffix as s;
    ghost use Rattle.hare_tree.specs.contracts.token.Meaning as m;
    ghost use Rattle.hare_types.specs.contracts.coercion.Ty as t;
    ghost use Rattle.hare_types.specs.contracts.coercion.Coercion as c;
    ghost use Rattle.hare_typed.specs.contracts.constant.Const as v;
    ghost use Rattle.hare_typed.specs.Typed.{TypedNode, marked, size_of, typed_nodes, typed_code};

    ghost Value = { TypedNode };

    ghost coded = { typed_code (Prim.hlevel (codes, k.the_row.coded, p.the_row.coded, s.the_row.coded))
        (Prim.hlevel (codes, t.the_row.coded, c.the_row.coded, m.the_row.coded, v.the_row.coded)) };

    ghost view = { λ a. marked record {
      kind = a.kind;
      place = a.place;
      text = a.text;
      number = a.number;
      suffix = a.suffix;
    } record {
      node = a.node;
      ty = a.ty;
      coerce = a.coerce;
      meaning = a.meaning;
      value = a.value;
    } (typed_nodes a.kids) };

    ghost size = { size_of };
}

impl TypedKids {
    /// No trees.
    pub fn new(alloc: Global) -> TypedKids
        ensures { result ≡ [] }
    {
        TypedKids {
            trees: Vec::new(alloc),
        }
    }

    /// No trees, with room for so many where there is memory for it: putting these takes no more then.
    pub fn with_room(alloc: Global, count: usize) -> TypedKids
        ensures { result ≡ [] }
    {
        match Vec::with_capacity(alloc, count) {
            Ok(trees) => TypedKids { trees },
            Err(_) => TypedKids::new(alloc),
        }
    }

    /// Puts a tree at the end. Nothing changes where memory is short; the tree is dropped then.
    pub fn push(&mut self, t: Typed) -> Result<(), AllocError>
        ensures ok { OnOk result (self.new ≡ self.old ++ t ∷ []) }
        ensures err { OnErr result (self.new ≡ self.old) }
    {
        self.trees.push(t)?;
        Ok(())
    }

    /// How many trees there are.
    pub fn len(&self) -> usize
        ensures { result ≡ length self.now }
    {
        self.trees.len()
    }

    /// The tree at a place of the list, from 0; none past the end.
    pub fn get(&self, i: usize) -> Option<&Typed>
        ensures none { IfNone result (length self.now ≤ i) }
        ensures found { IfSome result (λ t. slice_get self.now i ≡ Some t.now) }
    {
        self.trees.get(i)
    }
}
