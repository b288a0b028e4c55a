//! The kinds of nodes that have rows, in the order of the page.

use hare_tree::Kind;

/// A kind, and how a node of it is written.
#[derive(Clone, Copy)]
pub(crate) struct Entry {
    pub(crate) kind: Kind,
    pub(crate) form: &'static str,
}

/// Literals, names and operators.
pub(crate) fn operators() -> &'static [Entry] {
    &[
        Entry {
            kind: Kind::Number,
            form: "`5`, `0x1f`, `5u8`",
        },
        Entry {
            kind: Kind::Str,
            form: "`\"a\"`",
        },
        Entry {
            kind: Kind::RuneLit,
            form: "`'a'`",
        },
        Entry {
            kind: Kind::Bool,
            form: "`true`, `false`",
        },
        Entry {
            kind: Kind::Null,
            form: "`null`",
        },
        Entry {
            kind: Kind::Void,
            form: "`void`",
        },
        Entry {
            kind: Kind::Path,
            form: "`a`, `a::b`, where it is no callee and no length of an array",
        },
        Entry {
            kind: Kind::Paren,
            form: "`(e)`",
        },
        Entry {
            kind: Kind::Neg,
            form: "`-e`",
        },
        Entry {
            kind: Kind::Not,
            form: "`~e`",
        },
        Entry {
            kind: Kind::Bang,
            form: "`!e`",
        },
        Entry {
            kind: Kind::Deref,
            form: "`*e`",
        },
        Entry {
            kind: Kind::Addr,
            form: "`&e`",
        },
        Entry {
            kind: Kind::Arith,
            form: "`e + e`, and likewise `- * / % & | ^`",
        },
        Entry {
            kind: Kind::Shift,
            form: "`e << e`, `e >> e`",
        },
        Entry {
            kind: Kind::Less,
            form: "`e < e`, and likewise `<= > >=`",
        },
        Entry {
            kind: Kind::Equal,
            form: "`e == e`, `e != e`",
        },
        Entry {
            kind: Kind::Logic,
            form: "`e && e`, and likewise `|| ^^`",
        },
        Entry {
            kind: Kind::Assign,
            form: "`e = e`",
        },
        Entry {
            kind: Kind::OpAssign,
            form: "`e += e`, and likewise `-= *= /= %= &= |= ^= <<= >>=`",
        },
        Entry {
            kind: Kind::Cast,
            form: "`e: t`",
        },
        Entry {
            kind: Kind::As,
            form: "`e as t`",
        },
        Entry {
            kind: Kind::Is,
            form: "`e is t`",
        },
        Entry {
            kind: Kind::Size,
            form: "`size(t)`",
        },
        Entry {
            kind: Kind::Align,
            form: "`align(t)`",
        },
    ]
}

/// Calls, places, aggregates and the heap.
pub(crate) fn aggregates() -> &'static [Entry] {
    &[
        Entry {
            kind: Kind::Call,
            form: "`f(e)`",
        },
        Entry {
            kind: Kind::Index,
            form: "`e[e]`",
        },
        Entry {
            kind: Kind::Slice,
            form: "`e[e..e]`",
        },
        Entry {
            kind: Kind::Field,
            form: "`e.a`, `e.0`",
        },
        Entry {
            kind: Kind::Try,
            form: "`e?`",
        },
        Entry {
            kind: Kind::Force,
            form: "`e!`",
        },
        Entry {
            kind: Kind::StructLit,
            form: "`t { a = e }`",
        },
        Entry {
            kind: Kind::Tuple,
            form: "`(e, e)`",
        },
        Entry {
            kind: Kind::Array,
            form: "`[e, e]`, `[e...]`",
        },
        Entry {
            kind: Kind::Alloc,
            form: "`alloc(e)`, `alloc(e, e)`",
        },
        Entry {
            kind: Kind::Free,
            form: "`free(e)`",
        },
        Entry {
            kind: Kind::Append,
            form: "`append(e, e)`, `append(e, e...)`",
        },
        Entry {
            kind: Kind::Delete,
            form: "`delete(e[e])`, `delete(e[e..e])`",
        },
        Entry {
            kind: Kind::Len,
            form: "`len(e)`",
        },
        Entry {
            kind: Kind::Offset,
            form: "`offset(e.a)`",
        },
        Entry {
            kind: Kind::Abort,
            form: "`abort()`, `abort(\"a\")`",
        },
        Entry {
            kind: Kind::Assert,
            form: "`assert(e)`, `assert(e, \"a\")`",
        },
    ]
}

/// Statements and control.
pub(crate) fn control() -> &'static [Entry] {
    &[
        Entry {
            kind: Kind::Let,
            form: "`let a = e`, `let a: t = e`, in a function",
        },
        Entry {
            kind: Kind::Const,
            form: "`const a = e`, `const a: t = e`, in a function",
        },
        Entry {
            kind: Kind::Defer,
            form: "`defer e`",
        },
        Entry {
            kind: Kind::If,
            form: "`if (e) e`, `if (e) e else e`",
        },
        Entry {
            kind: Kind::For,
            form: "`for (e) e`, `for (let a = e; e; e) e`",
        },
        Entry {
            kind: Kind::ForEach,
            form: "`for (let a .. e) e`, `for (let a &.. e) e`",
        },
        Entry {
            kind: Kind::Break,
            form: "`break`, `break :a`",
        },
        Entry {
            kind: Kind::Continue,
            form: "`continue`, `continue :a`",
        },
        Entry {
            kind: Kind::Return,
            form: "`return`, `return e`",
        },
        Entry {
            kind: Kind::Yield,
            form: "`yield`, `yield e`, `yield :a, e`",
        },
        Entry {
            kind: Kind::Block,
            form: "`{ e; }`, `:a { e; }`",
        },
        Entry {
            kind: Kind::Match,
            form: "`match (e) { case t => e; }`",
        },
        Entry {
            kind: Kind::Case,
            form: "a case of a `match`",
        },
        Entry {
            kind: Kind::Switch,
            form: "`switch (e) { case e => e; }`",
        },
        Entry {
            kind: Kind::SwitchCase,
            form: "a case of a `switch`",
        },
    ]
}

/// Declarations with a value.
pub(crate) fn declarations() -> &'static [Entry] {
    &[
        Entry {
            kind: Kind::Def,
            form: "`def a = e;`, `def a: t = e;`",
        },
        Entry {
            kind: Kind::GlobalLet,
            form: "`let a = e;`, `let a: t = e;`, outside of functions",
        },
        Entry {
            kind: Kind::GlobalConst,
            form: "`const a = e;`, `const a: t = e;`, outside of functions",
        },
    ]
}

/// Types.
pub(crate) fn types() -> &'static [Entry] {
    &[
        Entry {
            kind: Kind::TypeScalar,
            form: "`int`, `str`, `void`",
        },
        Entry {
            kind: Kind::TypePath,
            form: "`a`, `a::b`",
        },
        Entry {
            kind: Kind::TypePointer,
            form: "`*t`",
        },
        Entry {
            kind: Kind::TypeNullable,
            form: "`nullable *t`",
        },
        Entry {
            kind: Kind::TypeSlice,
            form: "`[]t`",
        },
        Entry {
            kind: Kind::TypeError,
            form: "`!t`",
        },
        Entry {
            kind: Kind::TypeArray,
            form: "`[n]t`",
        },
        Entry {
            kind: Kind::TypeStruct,
            form: "`struct { a: t }`",
        },
        Entry {
            kind: Kind::TypeTuple,
            form: "`(t, t)`",
        },
        Entry {
            kind: Kind::TypeUnion,
            form: "`(t | t)`, `(...a | t)`",
        },
    ]
}
