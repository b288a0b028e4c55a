//! A type as its store keeps it: its own kind, with the ids of the types in it.

ghost use Rattle.std.specs.Cmp.{decided, partial_equiv_from_equiv};
ghost use Rattle.std.specs.Hash.{same_Alike};
ghost use Rattle.hare_types.specs.Keys.{row_eq, row_writes};
ghost use Rattle.hare_types.specs.KeyLaws.{row_eq-Decides};

use crate::id::TypeId;
use crate::lists::{Fields, TypeIds};
use crate::places::POINTER;
use std::hash::{Hash, Hasher};

/// The types that are written by one word.
#[derive(Clone, Copy, Debug, PartialEq, Eq, Hash)]
pub enum Scalar {
    Void,
    Never,
    Opaque,
    Bool,
    Rune,
    Str,
    I8,
    I16,
    I32,
    I64,
    U8,
    U16,
    U32,
    U64,
    /// `int`: 32 bits, signed, and distinct from `i32`.
    Int,
    /// `uint`: 32 bits, unsigned, and distinct from `u32`.
    Uint,
    /// `size`: 64 bits, unsigned, and distinct from `u64`.
    Size,
}

/// A type, given by its kind and the ids of the types in it.
#[derive(Drop)]
pub enum Row {
    /// A type that is written by one word.
    Scalar(Scalar),
    /// `*T`.
    Pointer(TypeId),
    /// `nullable *T`.
    Nullable(TypeId),
    /// `[]T`.
    Slice(TypeId),
    /// `[n]T`.
    Array(u64, TypeId),
    /// `struct { name: T, .. }`.
    Struct(Fields),
    /// `(T, U, ..)`.
    Tuple(TypeIds),
    /// `(T | U | ..)`, without an order of its own: the members ascend by id.
    Union(TypeIds),
    /// `!T`.
    Error(TypeId),
    /// The type of the declaration with this number.
    Named(u32),
}

impl PartialEq for Row {
    ghost eq = { row_eq };

    ghost laws = { partial_equiv_from_equiv (decided row_eq row_eq-Decides) };

    fn eq(&self, other: &Row) -> bool {
        match (self, other) {
            (Row::Scalar(a), Row::Scalar(b)) => *a == *b,
            (Row::Pointer(a), Row::Pointer(b)) => *a == *b,
            (Row::Nullable(a), Row::Nullable(b)) => *a == *b,
            (Row::Slice(a), Row::Slice(b)) => *a == *b,
            (Row::Array(m, a), Row::Array(n, b)) => *m == *n && *a == *b,
            (Row::Struct(a), Row::Struct(b)) => a.same(b),
            (Row::Tuple(a), Row::Tuple(b)) => a.same(b),
            (Row::Union(a), Row::Union(b)) => a.same(b),
            (Row::Error(a), Row::Error(b)) => *a == *b,
            (Row::Named(a), Row::Named(b)) => *a == *b,
            _ => false,
        }
    }
}

impl Eq for Row {
    ghost laws = { decided row_eq row_eq-Decides };
}

impl Hash for Row {
    ghost hash_input = { row_writes };

    ghost respects_eq = { λ x y. (same_Alike row_writes row_eq-Decides).fed x y };

    fn hash<H: Hasher>(&self, state: &mut H) {
        match self {
            Row::Scalar(a) => {
                state.write_u8(0);
                a.hash(state);
            }
            Row::Pointer(t) => {
                state.write_u8(POINTER);
                t.hash(state);
            }
            Row::Nullable(t) => {
                state.write_u8(2);
                t.hash(state);
            }
            Row::Slice(t) => {
                state.write_u8(3);
                t.hash(state);
            }
            Row::Array(n, t) => {
                state.write_u8(4);
                n.hash(state);
                t.hash(state);
            }
            Row::Struct(fields) => {
                state.write_u8(5);
                fields.as_slice().hash(state);
            }
            Row::Tuple(types) => {
                state.write_u8(6);
                types.as_slice().hash(state);
            }
            Row::Union(types) => {
                state.write_u8(7);
                types.as_slice().hash(state);
            }
            Row::Error(t) => {
                state.write_u8(8);
                t.hash(state);
            }
            Row::Named(decl) => {
                state.write_u8(9);
                decl.hash(state);
            }
        }
    }
}
