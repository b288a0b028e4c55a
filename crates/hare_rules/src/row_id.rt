//! The rows of the table of typing rules.

/// One row of the table of typing rules: a condition that a node has to meet. A name is that of the kinds whose list has the row, and what
/// it asks; where several kinds share a list, the first of them or what they have in common. `docs/RULES.md` has the table in words.
#[derive(Clone, Copy, Debug, PartialEq, Eq)]
pub enum RowId {
    /// Number: the type of the suffix holds it.
    NumberFits,
    /// Path: the local that it means has a known type.
    PathBindingKnown,
    /// Path: it means a value.
    PathNamed,
    /// Neg, Not: the operand is an integer.
    UnaryInteger,
    /// Neg, Not: a whole number without a suffix stays within 128 bits.
    UnaryRange,
    /// Bang: the operand is a bool.
    BangBoolean,
    /// Deref: the operand is a pointer to a type with a size.
    DerefPointed,
    /// Addr: the operand is a place.
    AddrPlace,
    /// Addr: it is mutable.
    AddrMutable,
    /// Arith: the operands have a common type.
    ArithCommon,
    /// Arith: the result of two whole numbers without a suffix exists.
    ArithRange,
    /// Shift: the operands are integers.
    ShiftIntegers,
    /// Shift: the result of two whole numbers without a suffix exists.
    ShiftRange,
    /// Shift: the left operand has a default type.
    ShiftLeftDefault,
    /// Less: the operands can be ordered.
    LessOrdered,
    /// Equal: the operands can be compared.
    EqualComparable,
    /// Assign: the left side is a place.
    AssignPlace,
    /// Assign: it is mutable.
    AssignMutable,
    /// OpAssign: the left side is a place.
    OpAssignPlace,
    /// OpAssign: it is mutable.
    OpAssignMutable,
    /// OpAssign: the result has the type of the left side.
    OpAssignFitting,
    /// Cast: the cast is admitted.
    CastCastable,
    /// As, Is: the operand is a tagged union or may be null.
    TestTagged,
    /// As, Is: the type is a member.
    TestMember,
    /// Size, Align: the type has a size.
    MeasureHasSize,
    /// Call: the callee is a path to a function.
    CallCallable,
    /// Call: there are as many arguments as parameters.
    CallArity,
    /// Index: the operand is an array or a slice.
    IndexIndexable,
    /// Slice: the operand is an array or a slice.
    SliceIndexable,
    /// Field: the operand has this member.
    FieldMember,
    /// Try: the operand is a union with an error member.
    TryErrors,
    /// Try: no deferred expression is open.
    TryUndeferred,
    /// Try: each error member may be returned.
    TryReturned,
    /// Force: the operand is a union with an error member.
    ForceErrors,
    /// StructLit: each field of a struct is named once.
    StructLitFields,
    /// Tuple: each component has a default type.
    TupleDefaults,
    /// Tuple: each component has a size.
    TupleHasSize,
    /// Tuple: it is not too large.
    TupleSmall,
    /// Array: the first item has a default type.
    ArrayFirstDefault,
    /// Array: behind `...` the hint is an array that is long enough.
    ArrayLong,
    /// Array: the element has a size.
    ArrayHasSize,
    /// Array: it is not too large.
    ArraySmall,
    /// Alloc of one operand: it has a default type.
    AllocDefault,
    /// Alloc of one operand: it has a size.
    AllocHasSize,
    /// Alloc with a capacity: the first operand is an array or a slice.
    AllocSequence,
    /// Free: the operand is a pointer or a slice.
    FreeFreeable,
    /// Append: the first operand is a place.
    AppendPlace,
    /// Append: it is mutable.
    AppendMutable,
    /// Append: it is a slice.
    AppendSequence,
    /// Delete: the operand is an index or a slice.
    DeleteKind,
    /// Delete: what is indexed is a slice.
    DeleteSequence,
    /// Delete: it is a place.
    DeletePlace,
    /// Delete: it is mutable.
    DeleteMutable,
    /// Len: the operand is an array, a slice or a str.
    LenCounted,
    /// Offset: the operand is a member.
    OffsetKind,
    /// Let, Const, Def, GlobalLet, GlobalConst: without a written type the value has a default type.
    BindingDefault,
    /// Let, Const, Def, GlobalLet, GlobalConst: the type has a size.
    BindingHasSize,
    /// Def, GlobalLet, GlobalConst: the value is constant.
    BindingConstant,
    /// Def: its type is a scalar or str.
    DefScalar,
    /// If with `else`: the first branch that goes on has a default type.
    IfFirstDefault,
    /// If with `else`: the other one fits it.
    IfRestFits,
    /// ForEach: the operand is an array or a slice.
    ForEachSequence,
    /// Break, Continue: there is such a loop.
    JumpTarget,
    /// Break, Continue: it is inside the same deferred expression.
    JumpInside,
    /// Return: no deferred expression is open.
    ReturnUndeferred,
    /// Return without a value: void may be returned.
    ReturnNoValue,
    /// Yield: there is such a block or case.
    YieldTarget,
    /// Yield: it is inside the same deferred expression.
    YieldInside,
    /// Yield without a value: void fits the hint of the target.
    YieldNoValue,
    /// Block that is the body of a function: its end is not reachable, or void may be returned.
    BlockReturns,
    /// Block: the first value that is yielded has a default type.
    BlockFirstDefault,
    /// Block: the others, and a reachable end, fit it.
    BlockRestFits,
    /// Case, SwitchCase: the first value that is yielded has a default type.
    CaseFirstDefault,
    /// Case, SwitchCase: the others, and a reachable end, fit it.
    CaseRestFits,
    /// Match: the operand is a tagged union or may be null.
    MatchTagged,
    /// Match: each pattern is a member.
    MatchPatterns,
    /// Match: no pattern stands twice.
    MatchDistinct,
    /// Match: each member has a case.
    MatchCovered,
    /// Match: the cases fit together.
    MatchRestFits,
    /// Switch: the operand is a scalar or a str.
    SwitchScalar,
    /// Switch: each value is constant.
    SwitchConstants,
    /// Switch: no value stands twice.
    SwitchDistinct,
    /// Switch: each value of the type has a case.
    SwitchCovered,
    /// Switch: the cases fit together.
    SwitchRestFits,
    /// TypeSlice: the element has a size.
    SliceElementSized,
    /// TypeArray: the length is one.
    ArrayLength,
    /// TypeArray: the element has a size.
    ArrayElementSized,
    /// TypeArray: the type is not too large.
    ArrayTypeSmall,
    /// TypeStruct, TypeTuple: each field has a size.
    FieldsSized,
    /// TypeStruct, TypeTuple: the type is not too large.
    FieldsSmall,
    /// TypeUnion: each type that is spread is a union.
    UnionSpreads,
    /// TypeUnion: each member has a size.
    UnionMembersSized,
    /// TypeUnion: a member is left.
    UnionLeft,
    /// TypeUnion: there are not too many members.
    UnionNarrow,
    /// TypeUnion: the type is not too large.
    UnionSmall,
    /// The written type of a binding has a size.
    Bound,
    /// An expression that has to become a value of a type may be assigned to it.
    Site,
    /// An expression whose value is dropped holds no error.
    Kept,
}
