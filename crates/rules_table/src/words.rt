//! What the rows of the table ask, in words, and where their faults stand.

use hare_rules::RowId;

/// What must hold of the node.
pub(crate) fn asks(row: RowId) -> &'static str {
    match row {
        RowId::NumberFits => "the type of the suffix, where there is one, holds the number",
        RowId::PathBindingKnown =>
            "the binding that it means, if it means one, is not that of a `for` over what is no array and no slice",
        RowId::PathNamed => "it means a binding, a global or a def, or a type whose base is void",
        RowId::UnaryInteger =>
            "the base of the operand is an integer type, or it is a whole number without a suffix",
        RowId::UnaryRange =>
            "of a whole number without a suffix the result is from -2^127 to 2^127 - 1",
        RowId::BangBoolean => "the base of the operand is bool",
        RowId::DerefPointed =>
            "the base of the operand is a pointer that cannot be null, to a type with a size",
        RowId::AddrPlace => "the operand is a place",
        RowId::AddrMutable | RowId::AssignMutable | RowId::OpAssignMutable | RowId::AppendMutable =>
            "it may be assigned to",
        RowId::ArithCommon => "the operands have a common type",
        RowId::ArithRange =>
            "of two whole numbers without a suffix the result is from -2^127 to 2^127 - 1, and nothing is divided by 0",
        RowId::ShiftIntegers =>
            "the base of each operand is an integer type, or it is a whole number without a suffix",
        RowId::ShiftRange =>
            "of two whole numbers without a suffix the amount is from 0 to 127, and the result from -2^127 to 2^127 - 1",
        RowId::ShiftLeftDefault =>
            "the left operand has a default type, or both are whole numbers without a suffix",
        RowId::LessOrdered => "the operands have a common type, or one type whose base is rune",
        RowId::EqualComparable =>
            "the operands have a common type; or one type whose base is bool, rune, str or a pointer; or one is `null` and the base of the other a pointer that may be null; or their types are `*X` and `nullable *X` themselves",
        RowId::AssignPlace | RowId::OpAssignPlace => "the left side is a place",
        RowId::OpAssignFitting =>
            "the common type of both sides is the type of the left one; for `<<=` and `>>=` the left side has an integer base, and the right one has, or is a whole number without a suffix",
        RowId::CastCastable => "the operand may be cast to the type",
        RowId::TestTagged | RowId::MatchTagged =>
            "the base of the operand is a union, or a pointer that may be null",
        RowId::TestMember =>
            "the type is itself a member of that union, or `*X` itself where the base is `nullable *X`",
        RowId::MeasureHasSize => "the type has a size",
        RowId::CallCallable =>
            "the callee is a path, and not in parentheses, to a function of the program or of `rt`",
        RowId::CallArity => "there are as many arguments as parameters",
        RowId::IndexIndexable | RowId::SliceIndexable =>
            "behind at most 16 pointers, the base of the operand is an array or a slice",
        RowId::FieldMember =>
            "behind at most 16 pointers, the base of the operand is a struct with a field of this name, or a tuple with a component of this number, which is spelled by decimal digits alone",
        RowId::TryErrors | RowId::ForceErrors =>
            "the base of the operand is a union with an error member",
        RowId::TryUndeferred | RowId::ReturnUndeferred => "no deferred expression is open round it",
        RowId::TryReturned => "each error member may be assigned to the result of the function",
        RowId::StructLitFields =>
            "the base of the type is a struct, each of its fields is named once, and nothing else is",
        RowId::TupleDefaults =>
            "each item has a default type, unless the hint is a tuple of as many components",
        RowId::TupleHasSize => "each component has a size",
        RowId::TupleSmall
        | RowId::ArraySmall
        | RowId::ArrayTypeSmall
        | RowId::FieldsSmall
        | RowId::UnionSmall => "it has at most 67,108,864 bytes",
        RowId::ArrayFirstDefault =>
            "the first item has a default type, unless the hint is an array or a slice",
        RowId::ArrayLong =>
            "with `...` the hint is an array of at least as many elements as there are items",
        RowId::ArrayHasSize => "the element, where there is one, has a size",
        RowId::AllocDefault => "of one operand, it has a default type",
        RowId::AllocHasSize => "of one operand, that type has a size",
        RowId::AllocSequence => "of two operands, the base of the first is an array or a slice",
        RowId::FreeFreeable =>
            "the base of the operand is a pointer, which may be null or not, or a slice",
        RowId::AppendPlace => "the first operand is a place",
        RowId::AppendSequence => "its base is a slice",
        RowId::DeleteKind => "the operand is an index or a slice, and not in parentheses",
        RowId::DeleteSequence =>
            "behind at most 16 pointers, the base of what is indexed is a slice",
        RowId::DeletePlace => "what is indexed is a place, or a pointer is followed to it",
        RowId::DeleteMutable =>
            "what is indexed may be assigned to, or a pointer is followed to it",
        RowId::LenCounted => "the base of the operand is an array, a slice or str",
        RowId::OffsetKind => "the operand is the access of a member, and not in parentheses",
        RowId::BindingDefault => "the value has a default type, where no type is written",
        RowId::BindingHasSize => "the written type, or else that default, has a size",
        RowId::BindingConstant => "the value is constant, and nothing in it would abort",
        RowId::DefScalar => "the base of its type is an integer type, bool, rune or str",
        RowId::IfFirstDefault =>
            "with `else` and without a hint: the first branch that is not of type never has a default type",
        RowId::IfRestFits =>
            "with `else` and without a hint: each branch may be assigned to that type",
        RowId::ForEachSequence => "the base of the operand is an array or a slice",
        RowId::JumpTarget => "a loop stands round it, with the label if one is given",
        RowId::JumpInside => "that loop stands inside the same deferred expression",
        RowId::ReturnNoValue =>
            "there is a value, or void may be assigned to the result of the function",
        RowId::YieldTarget =>
            "a block or a case stands round it, or with a label a block of that label",
        RowId::YieldInside => "that one stands inside the same deferred expression",
        RowId::YieldNoValue =>
            "there is a value, or the hint of that one is no type, or void may be assigned to it",
        RowId::BlockReturns =>
            "as the body of a function: its end is not reached, or void may be assigned to the result",
        RowId::BlockFirstDefault | RowId::CaseFirstDefault =>
            "without a hint: the first value that is yielded and not of type never has a default type",
        RowId::BlockRestFits =>
            "where anything is yielded: each value, and void where its end is reached, may be assigned to the type of the block",
        RowId::CaseRestFits =>
            "where anything is yielded: each value, and void where its end is reached, may be assigned to the type of the case",
        RowId::MatchPatterns =>
            "each pattern is itself a member of that union; where the base is `nullable *X` it is `null` or `*X` itself",
        RowId::MatchDistinct => "no pattern stands twice, and neither does a case without one",
        RowId::MatchCovered =>
            "there is a case without a pattern, or one for each member, or one for `null` and one for the pointer",
        RowId::MatchRestFits | RowId::SwitchRestFits =>
            "without a hint: each case may be assigned to the default of the first that is not of type never",
        RowId::SwitchScalar =>
            "the operand has a default type, whose base is an integer type, bool, rune or str",
        RowId::SwitchConstants => "each value is constant, and nothing in it would abort",
        RowId::SwitchDistinct =>
            "no value stands twice, and neither does a case without one; texts are compared by their bytes",
        RowId::SwitchCovered =>
            "there is a case without values, or each value of the type is listed",
        RowId::SliceElementSized | RowId::ArrayElementSized => "the element has a size",
        RowId::ArrayLength =>
            "the length is a number without a suffix or with `z`, or the name of a def with an integer base, and is from 0 to 67,108,864",
        RowId::FieldsSized => "each field or component has a size",
        RowId::UnionSpreads => "the base of each type behind `...` is a union",
        RowId::UnionMembersSized => "each written member has a size, or is never itself",
        RowId::UnionLeft =>
            "a member is left when unions among the members are taken apart and never is dropped",
        RowId::UnionNarrow => "at most 64 members are left",
        RowId::Bound =>
            "where it is the written type of a binding, a parameter or a declaration, it has a size",
        RowId::Site => "where the hint is a type, the value may be assigned to it",
        RowId::Kept =>
            "where the value is dropped, it is no error, and no union with an error member as its base",
    }
}

/// Where the fault stands, where that is not the node.
pub(crate) fn stands(row: RowId) -> &'static str {
    match row {
        RowId::PathBindingKnown => "; at that `for`",
        RowId::TupleDefaults => "; at the first item that has none",
        RowId::ArrayFirstDefault => "; at that item",
        RowId::AllocDefault => "; at the operand",
        RowId::BindingDefault | RowId::DefScalar => "; at the value",
        RowId::BindingHasSize => "; at the written type, if there is one",
        RowId::BindingConstant => "; at the first node that is not constant or would abort",
        RowId::IfFirstDefault => "; at that branch",
        RowId::IfRestFits => "; at the first branch that may not",
        RowId::BlockFirstDefault | RowId::CaseFirstDefault => "; at that value",
        RowId::BlockRestFits => "; at the first value that may not, and for the end at the block",
        RowId::CaseRestFits => "; at the first value that may not, and for the end at `case`",
        RowId::MatchPatterns => "; at the first pattern that is not",
        RowId::MatchDistinct => "; at the first case that repeats one",
        RowId::MatchRestFits | RowId::SwitchRestFits => "; at the first case that may not",
        RowId::SwitchConstants => "; at the first value that is not",
        RowId::SwitchDistinct => "; at the first value or case that repeats one",
        RowId::ArrayLength => "; at the length",
        RowId::UnionSpreads => "; at the first `...` of which that is not so",
        _ => "",
    }
}
