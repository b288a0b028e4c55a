//! The form of each kind, by topic.

mod builtins;
mod declarations;
mod operators;
mod statements;
mod types;
mod values;

ghost use Rattle.std.specs.Prelude.{◌≡◌};
ghost use Rattle.hare_tree.specs.Forms as forms;

use crate::form::Piece;
use crate::kind::Kind;

/// The form of a kind: what it is spelled by, in order.
pub fn form_of(k: Kind) -> &'static [Piece]
    ensures { result.now ≡ forms.form_of k }
{
    match k {
        Kind::None => &[],
        Kind::Use => declarations::USE,
        Kind::UseAlias => declarations::USE_ALIAS,
        Kind::UseNames => declarations::USE_NAMES,
        Kind::ImportPath => declarations::IMPORT_PATH,
        Kind::Def => declarations::DEF,
        Kind::GlobalLet => declarations::GLOBAL_LET,
        Kind::GlobalConst => declarations::GLOBAL_CONST,
        Kind::TypeDecl => declarations::TYPE_DECL,
        Kind::Fn => declarations::FN,
        Kind::Params => declarations::PARAMS,
        Kind::Param | Kind::StructField => declarations::TYPED_NAME,
        Kind::Name => declarations::NAME,
        Kind::Export => declarations::EXPORT,
        Kind::TrailingComma => values::TRAILING_COMMA,
        Kind::Dots => values::DOTS,
        Kind::ByRef => statements::BY_REF,
        Kind::TypeScalar => types::TYPE_SCALAR,
        Kind::TypePath | Kind::Path => values::PATH,
        Kind::TypePointer => types::TYPE_POINTER,
        Kind::TypeNullable => types::TYPE_NULLABLE,
        Kind::TypeSlice => types::TYPE_SLICE,
        Kind::TypeError => types::TYPE_ERROR,
        Kind::TypeArray => types::TYPE_ARRAY,
        Kind::TypeStruct => types::TYPE_STRUCT,
        Kind::TypeTuple => types::TYPE_TUPLE,
        Kind::TypeUnion => types::TYPE_UNION,
        Kind::Spread => types::SPREAD,
        Kind::Number => values::NUMBER,
        Kind::RuneLit => values::RUNE_LIT,
        Kind::Str | Kind::Message => values::TEXT,
        Kind::Bool => values::BOOL,
        Kind::Null | Kind::PatternNull => values::NULL,
        Kind::Void => values::VOID,
        Kind::Paren => values::PAREN,
        Kind::Neg => operators::NEG,
        Kind::Not => operators::NOT,
        Kind::Bang => operators::BANG,
        Kind::Deref => operators::DEREF,
        Kind::Addr => operators::ADDR,
        Kind::Try => operators::TRY,
        Kind::Force => operators::FORCE,
        Kind::Free => builtins::FREE,
        Kind::Delete => builtins::DELETE,
        Kind::Len => builtins::LEN,
        Kind::Offset => builtins::OFFSET,
        Kind::Size => builtins::SIZE,
        Kind::Align => builtins::ALIGN,
        Kind::Defer => statements::DEFER,
        Kind::Arith | Kind::Shift | Kind::Less | Kind::Equal | Kind::Logic => operators::BINARY,
        Kind::OpAssign => operators::OP_ASSIGN,
        Kind::Assign => operators::ASSIGN,
        Kind::Index => operators::INDEX,
        Kind::Cast => operators::CAST,
        Kind::As => operators::AS,
        Kind::Is => operators::IS,
        Kind::Call => operators::CALL,
        Kind::Slice => operators::SLICE,
        Kind::Field => operators::FIELD,
        Kind::StructLit => values::STRUCT_LIT,
        Kind::FieldValue => values::FIELD_VALUE,
        Kind::Tuple => values::TUPLE,
        Kind::Array => values::ARRAY,
        Kind::Alloc => builtins::ALLOC,
        Kind::Append => builtins::APPEND,
        Kind::Abort => builtins::ABORT,
        Kind::Assert => builtins::ASSERT,
        Kind::Let => statements::LET,
        Kind::Const => statements::CONST,
        Kind::If => statements::IF,
        Kind::For => statements::FOR,
        Kind::ForEach => statements::FOR_EACH,
        Kind::Binding => statements::BINDING,
        Kind::Break => statements::BREAK,
        Kind::Continue => statements::CONTINUE,
        Kind::Return => statements::RETURN,
        Kind::Yield => statements::YIELD,
        Kind::Block => statements::BLOCK,
        Kind::Match => statements::MATCH,
        Kind::Case => statements::CASE,
        Kind::PatternLet => statements::PATTERN_LET,
        Kind::Switch => statements::SWITCH,
        Kind::SwitchCase => statements::SWITCH_CASE,
        Kind::Values => statements::VALUES,
    }
}
