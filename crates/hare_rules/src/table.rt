//! The table of typing rules.

ghost use Rattle.std.specs.Prelude.{◌≡◌};
ghost use Rattle.hare_rules.specs.Table.{rows_of, number_of};

use crate::row_id::RowId;
use hare_tree::Kind;

/// The rows that a node of this kind has to meet, in the order in which they are looked at: the first that fails is the node's fault. A
/// kind that is no expression, statement, type or declaration with a value has none. `docs/RULES.md` has each row in words.
pub fn rows(k: Kind) -> &'static [RowId]
    ensures value { result.now ≡ rows_of k }
{
    match k {
        Kind::Number => &[RowId::NumberFits, RowId::Site, RowId::Kept],
        Kind::Str
        | Kind::RuneLit
        | Kind::Bool
        | Kind::Null
        | Kind::Void
        | Kind::Paren
        | Kind::Logic
        | Kind::Abort
        | Kind::Assert
        | Kind::Defer
        | Kind::For => &[RowId::Site, RowId::Kept],
        Kind::Path => &[
            RowId::PathBindingKnown,
            RowId::PathNamed,
            RowId::Site,
            RowId::Kept,
        ],
        Kind::Neg | Kind::Not => &[
            RowId::UnaryInteger,
            RowId::UnaryRange,
            RowId::Site,
            RowId::Kept,
        ],
        Kind::Bang => &[RowId::BangBoolean, RowId::Site, RowId::Kept],
        Kind::Deref => &[RowId::DerefPointed, RowId::Site, RowId::Kept],
        Kind::Addr => &[
            RowId::AddrPlace,
            RowId::AddrMutable,
            RowId::Site,
            RowId::Kept,
        ],
        Kind::Arith => &[
            RowId::ArithCommon,
            RowId::ArithRange,
            RowId::Site,
            RowId::Kept,
        ],
        Kind::Shift => &[
            RowId::ShiftIntegers,
            RowId::ShiftRange,
            RowId::ShiftLeftDefault,
            RowId::Site,
            RowId::Kept,
        ],
        Kind::Less => &[RowId::LessOrdered, RowId::Site, RowId::Kept],
        Kind::Equal => &[RowId::EqualComparable, RowId::Site, RowId::Kept],
        Kind::Assign => &[
            RowId::AssignPlace,
            RowId::AssignMutable,
            RowId::Site,
            RowId::Kept,
        ],
        Kind::OpAssign => &[
            RowId::OpAssignPlace,
            RowId::OpAssignMutable,
            RowId::OpAssignFitting,
            RowId::Site,
            RowId::Kept,
        ],
        Kind::Cast => &[RowId::CastCastable, RowId::Site, RowId::Kept],
        Kind::As | Kind::Is => &[
            RowId::TestTagged,
            RowId::TestMember,
            RowId::Site,
            RowId::Kept,
        ],
        Kind::Size | Kind::Align => &[RowId::MeasureHasSize, RowId::Site, RowId::Kept],
        Kind::Call => &[
            RowId::CallCallable,
            RowId::CallArity,
            RowId::Site,
            RowId::Kept,
        ],
        Kind::Index => &[RowId::IndexIndexable, RowId::Site, RowId::Kept],
        Kind::Slice => &[RowId::SliceIndexable, RowId::Site, RowId::Kept],
        Kind::Field => &[RowId::FieldMember, RowId::Site, RowId::Kept],
        Kind::Try => &[
            RowId::TryErrors,
            RowId::TryUndeferred,
            RowId::TryReturned,
            RowId::Site,
            RowId::Kept,
        ],
        Kind::Force => &[RowId::ForceErrors, RowId::Site, RowId::Kept],
        Kind::StructLit => &[RowId::StructLitFields, RowId::Site, RowId::Kept],
        Kind::Tuple => &[
            RowId::TupleDefaults,
            RowId::TupleHasSize,
            RowId::TupleSmall,
            RowId::Site,
            RowId::Kept,
        ],
        Kind::Array => &[
            RowId::ArrayFirstDefault,
            RowId::ArrayLong,
            RowId::ArrayHasSize,
            RowId::ArraySmall,
            RowId::Site,
            RowId::Kept,
        ],
        Kind::Alloc => &[
            RowId::AllocDefault,
            RowId::AllocHasSize,
            RowId::AllocSequence,
            RowId::Site,
            RowId::Kept,
        ],
        Kind::Free => &[RowId::FreeFreeable, RowId::Site, RowId::Kept],
        Kind::Append => &[
            RowId::AppendPlace,
            RowId::AppendMutable,
            RowId::AppendSequence,
            RowId::Site,
            RowId::Kept,
        ],
        Kind::Delete => &[
            RowId::DeleteKind,
            RowId::DeleteSequence,
            RowId::DeletePlace,
            RowId::DeleteMutable,
            RowId::Site,
            RowId::Kept,
        ],
        Kind::Len => &[RowId::LenCounted, RowId::Site, RowId::Kept],
        Kind::Offset => &[RowId::OffsetKind, RowId::Site, RowId::Kept],
        Kind::Let | Kind::Const => &[
            RowId::BindingDefault,
            RowId::BindingHasSize,
            RowId::Site,
            RowId::Kept,
        ],
        Kind::If => &[
            RowId::IfFirstDefault,
            RowId::IfRestFits,
            RowId::Site,
            RowId::Kept,
        ],
        Kind::ForEach => &[RowId::ForEachSequence, RowId::Site, RowId::Kept],
        Kind::Break | Kind::Continue => &[
            RowId::JumpTarget,
            RowId::JumpInside,
            RowId::Site,
            RowId::Kept,
        ],
        Kind::Return => &[
            RowId::ReturnUndeferred,
            RowId::ReturnNoValue,
            RowId::Site,
            RowId::Kept,
        ],
        Kind::Yield => &[
            RowId::YieldTarget,
            RowId::YieldInside,
            RowId::YieldNoValue,
            RowId::Site,
            RowId::Kept,
        ],
        Kind::Block => &[
            RowId::BlockReturns,
            RowId::BlockFirstDefault,
            RowId::BlockRestFits,
            RowId::Site,
            RowId::Kept,
        ],
        Kind::Case | Kind::SwitchCase => &[
            RowId::CaseFirstDefault,
            RowId::CaseRestFits,
            RowId::Site,
            RowId::Kept,
        ],
        Kind::Match => &[
            RowId::MatchTagged,
            RowId::MatchPatterns,
            RowId::MatchDistinct,
            RowId::MatchCovered,
            RowId::MatchRestFits,
            RowId::Site,
            RowId::Kept,
        ],
        Kind::Switch => &[
            RowId::SwitchScalar,
            RowId::SwitchConstants,
            RowId::SwitchDistinct,
            RowId::SwitchCovered,
            RowId::SwitchRestFits,
            RowId::Site,
            RowId::Kept,
        ],
        Kind::Def => &[
            RowId::BindingDefault,
            RowId::BindingHasSize,
            RowId::BindingConstant,
            RowId::DefScalar,
            RowId::Site,
            RowId::Kept,
        ],
        Kind::GlobalLet | Kind::GlobalConst => &[
            RowId::BindingDefault,
            RowId::BindingHasSize,
            RowId::BindingConstant,
            RowId::Site,
            RowId::Kept,
        ],
        Kind::TypeScalar
        | Kind::TypePath
        | Kind::TypePointer
        | Kind::TypeNullable
        | Kind::TypeError => &[RowId::Bound],
        Kind::TypeSlice => &[RowId::SliceElementSized, RowId::Bound],
        Kind::TypeArray => &[
            RowId::ArrayLength,
            RowId::ArrayElementSized,
            RowId::ArrayTypeSmall,
            RowId::Bound,
        ],
        Kind::TypeStruct | Kind::TypeTuple => &[
            RowId::FieldsSized,
            RowId::FieldsSmall,
            RowId::Bound,
        ],
        Kind::TypeUnion => &[
            RowId::UnionSpreads,
            RowId::UnionMembersSized,
            RowId::UnionLeft,
            RowId::UnionNarrow,
            RowId::UnionSmall,
            RowId::Bound,
        ],
        _ => &[],
    }
}

/// The number of the fault that a node has where the row is the first of its list that fails, as 25 for E25.
pub fn number(r: RowId) -> u8
    ensures value { result ≡ number_of r }
{
    match r {
        RowId::MeasureHasSize
        | RowId::TupleHasSize
        | RowId::ArrayHasSize
        | RowId::AllocHasSize
        | RowId::BindingHasSize
        | RowId::SliceElementSized
        | RowId::ArrayElementSized
        | RowId::FieldsSized
        | RowId::UnionMembersSized
        | RowId::Bound => 17,
        RowId::TupleSmall
        | RowId::ArraySmall
        | RowId::ArrayTypeSmall
        | RowId::FieldsSmall
        | RowId::UnionSmall => 18,
        RowId::UnionLeft => 19,
        RowId::UnionNarrow => 20,
        RowId::BindingConstant | RowId::DefScalar | RowId::SwitchConstants => 21,
        RowId::NumberFits | RowId::UnaryRange | RowId::ArithRange | RowId::ShiftRange => 22,
        RowId::ArrayLength => 24,
        RowId::TupleDefaults
        | RowId::ArrayFirstDefault
        | RowId::ArrayLong
        | RowId::AllocDefault
        | RowId::BindingDefault
        | RowId::IfFirstDefault
        | RowId::ReturnNoValue
        | RowId::YieldNoValue
        | RowId::BlockFirstDefault
        | RowId::CaseFirstDefault
        | RowId::Site => 25,
        RowId::CastCastable => 26,
        RowId::PathNamed
        | RowId::UnaryInteger
        | RowId::BangBoolean
        | RowId::DerefPointed
        | RowId::ArithCommon
        | RowId::ShiftIntegers
        | RowId::ShiftLeftDefault
        | RowId::LessOrdered
        | RowId::EqualComparable
        | RowId::OpAssignFitting
        | RowId::FreeFreeable
        | RowId::SwitchScalar => 27,
        RowId::AddrPlace
        | RowId::AssignPlace
        | RowId::OpAssignPlace
        | RowId::AppendPlace
        | RowId::DeleteKind
        | RowId::DeletePlace => 28,
        RowId::AddrMutable
        | RowId::AssignMutable
        | RowId::OpAssignMutable
        | RowId::AppendMutable
        | RowId::DeleteMutable => 29,
        RowId::CallArity => 30,
        RowId::CallCallable => 31,
        RowId::FieldMember | RowId::OffsetKind => 32,
        RowId::PathBindingKnown
        | RowId::IndexIndexable
        | RowId::SliceIndexable
        | RowId::AllocSequence
        | RowId::AppendSequence
        | RowId::DeleteSequence
        | RowId::LenCounted
        | RowId::ForEachSequence => 33,
        RowId::StructLitFields => 34,
        RowId::TestTagged | RowId::MatchTagged | RowId::UnionSpreads => 35,
        RowId::TestMember | RowId::MatchPatterns => 36,
        RowId::MatchCovered | RowId::SwitchCovered => 37,
        RowId::MatchDistinct | RowId::SwitchDistinct => 38,
        RowId::IfRestFits
        | RowId::BlockRestFits
        | RowId::CaseRestFits
        | RowId::MatchRestFits
        | RowId::SwitchRestFits => 39,
        RowId::JumpTarget | RowId::YieldTarget => 40,
        RowId::TryUndeferred | RowId::JumpInside | RowId::ReturnUndeferred | RowId::YieldInside =>
            41,
        RowId::TryErrors | RowId::ForceErrors => 42,
        RowId::TryReturned => 43,
        RowId::Kept => 44,
        RowId::BlockReturns => 45,
    }
}
