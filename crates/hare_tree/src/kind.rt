//! The kinds of trees.

/// The kind of a tree: which form of the grammar it is of. `docs/TREES.md` has the kids of each.
#[derive(Clone, Copy, Debug, PartialEq, Eq)]
pub enum Kind {
    /// What stands in the place of a kid that is not there.
    None,
    /// `use a::b;`
    Use,
    /// `use n = a::b;`
    UseAlias,
    /// `use a::{b, c};`
    UseNames,
    /// The path of an import.
    ImportPath,
    /// `def n: t = e;`
    Def,
    /// `let n: t = e;` outside of functions.
    GlobalLet,
    /// `const n: t = e;` outside of functions.
    GlobalConst,
    /// `type n = t;`
    TypeDecl,
    /// `fn n(p: t) t = e;`
    Fn,
    /// The parameters of a function with their parentheses.
    Params,
    /// One parameter.
    Param,
    /// One field of a struct type.
    StructField,
    /// A name.
    Name,
    /// `export`
    Export,
    /// A comma behind the last item of a list.
    TrailingComma,
    /// `...` behind a last value.
    Dots,
    /// `&` of a binding.
    ByRef,
    /// A type that is one keyword.
    TypeScalar,
    /// A type named by a path.
    TypePath,
    /// `*t`
    TypePointer,
    /// `nullable *t`
    TypeNullable,
    /// `[]t`
    TypeSlice,
    /// `!t`
    TypeError,
    /// `[n]t`
    TypeArray,
    /// `struct { a: t }`
    TypeStruct,
    /// `(t, t)`
    TypeTuple,
    /// `(t | t)`
    TypeUnion,
    /// `...a::b` in a union.
    Spread,
    /// A number.
    Number,
    /// A rune literal.
    RuneLit,
    /// A string.
    Str,
    /// The string of an `abort` or an `assert`.
    Message,
    /// `true` or `false`.
    Bool,
    /// `null`
    Null,
    /// `void`
    Void,
    /// A path.
    Path,
    /// `(e)`
    Paren,
    /// `-e`
    Neg,
    /// `~e`
    Not,
    /// `!e`
    Bang,
    /// `*e`
    Deref,
    /// `&e`
    Addr,
    /// `e?`
    Try,
    /// `e!`
    Force,
    /// `free(e)`
    Free,
    /// `delete(e)`
    Delete,
    /// `len(e)`
    Len,
    /// `offset(e)`
    Offset,
    /// `defer e`
    Defer,
    /// `size(t)`
    Size,
    /// `align(t)`
    Align,
    /// `e + e`, and likewise `- * / % & ^ |`.
    Arith,
    /// `e << e` and `e >> e`.
    Shift,
    /// `e < e`, and likewise `<= > >=`.
    Less,
    /// `e == e` and `e != e`.
    Equal,
    /// `e && e`, `e ^^ e` and `e || e`.
    Logic,
    /// `e += e`, and likewise for each operator of Arith and Shift.
    OpAssign,
    /// `e = e`
    Assign,
    /// `e[e]`
    Index,
    /// `e: t`
    Cast,
    /// `e as t`
    As,
    /// `e is t`
    Is,
    /// `e(e, e)`
    Call,
    /// `e[e..e]`
    Slice,
    /// `e.n` and `e.0`
    Field,
    /// `p { n = e }`
    StructLit,
    /// One value of a struct literal.
    FieldValue,
    /// `(e, e)`
    Tuple,
    /// `[e, e...]`
    Array,
    /// `alloc(e, e)`
    Alloc,
    /// `append(e, e...)`
    Append,
    /// `abort("..")`
    Abort,
    /// `assert(e, "..")`
    Assert,
    /// `let n: t = e`
    Let,
    /// `const n: t = e`
    Const,
    /// `if (e) e else e`
    If,
    /// `for (let n = e; e; e) e`
    For,
    /// `for (let n .. e) e`
    ForEach,
    /// `let n ..` and `let n & ..` in the head of a loop.
    Binding,
    /// `break :n`
    Break,
    /// `continue :n`
    Continue,
    /// `return e`
    Return,
    /// `yield :n, e`
    Yield,
    /// `:n { e; }`
    Block,
    /// `match (e) { case p => e; }`
    Match,
    /// One case of a `match`.
    Case,
    /// `let n: t` as a pattern.
    PatternLet,
    /// `null` as a pattern.
    PatternNull,
    /// `switch (e) { case e, e => e; }`
    Switch,
    /// One case of a `switch`.
    SwitchCase,
    /// The values of a case.
    Values,
}
