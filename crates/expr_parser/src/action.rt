//! The actions that build expressions.

ghost use Rattle.std.specs.Prelude.{◌≡◌};
ghost use Rattle.expr_parser.specs.Marks.{expr_action};

use res_ast::BinOp;
use res_grammar::marks;

/// What is done where an action stands in the derivation of an expression.
#[derive(Clone, Copy, Debug, PartialEq, Eq)]
pub enum ExprAction {
    Keep,
    OpenList,
    AddExpr,
    Binary(BinOp),
    Not,
    Minus,
    Literal,
    MinusLiteral,
    Truth(bool),
    MinInt,
    MaxInt,
    EmptyString,
    Word,
    Old,
    Dot,
    OldDot,
    Call,
    FacilityCall,
    IsInitial,
    Bars,
    Single,
    Parentheses,
    Tuple,
    ResultEquals,
}

/// What the action of this number builds of an expression, if it does.
pub fn expr_action(number: u8) -> Option<ExprAction>
    ensures { result ≡ expr_action number }
{
    match number {
        marks::KEEP => Some(ExprAction::Keep),
        marks::OPEN_COMPONENT => Some(ExprAction::Keep),
        marks::OPEN_OPERATION => Some(ExprAction::Keep),
        marks::EXPRS => Some(ExprAction::OpenList),
        marks::ADD_EXPR => Some(ExprAction::AddExpr),
        marks::ADD_FIRST => Some(ExprAction::AddExpr),
        marks::IMPLIES => Some(ExprAction::Binary(BinOp::Implies)),
        marks::OR => Some(ExprAction::Binary(BinOp::Or)),
        marks::AND => Some(ExprAction::Binary(BinOp::And)),
        marks::NOT => Some(ExprAction::Not),
        marks::EQUAL => Some(ExprAction::Binary(BinOp::Eq)),
        marks::NOT_EQUAL => Some(ExprAction::Binary(BinOp::NotEq)),
        marks::LESS => Some(ExprAction::Binary(BinOp::Less)),
        marks::LESS_EQUAL => Some(ExprAction::Binary(BinOp::LessEq)),
        marks::GREATER => Some(ExprAction::Binary(BinOp::Greater)),
        marks::GREATER_EQUAL => Some(ExprAction::Binary(BinOp::GreaterEq)),
        marks::CAT => Some(ExprAction::Binary(BinOp::Cat)),
        marks::ADD => Some(ExprAction::Binary(BinOp::Add)),
        marks::SUB => Some(ExprAction::Binary(BinOp::Sub)),
        marks::MUL => Some(ExprAction::Binary(BinOp::Mul)),
        marks::DIV => Some(ExprAction::Binary(BinOp::Div)),
        marks::MOD => Some(ExprAction::Binary(BinOp::Mod)),
        marks::LITERAL => Some(ExprAction::Literal),
        marks::MINUS => Some(ExprAction::Minus),
        marks::MINUS_LITERAL => Some(ExprAction::MinusLiteral),
        marks::TRUE => Some(ExprAction::Truth(true)),
        marks::FALSE => Some(ExprAction::Truth(false)),
        marks::MIN_INT => Some(ExprAction::MinInt),
        marks::MAX_INT => Some(ExprAction::MaxInt),
        marks::EMPTY_STRING => Some(ExprAction::EmptyString),
        marks::WORD => Some(ExprAction::Word),
        marks::OLD => Some(ExprAction::Old),
        marks::DOT => Some(ExprAction::Dot),
        marks::OLD_DOT => Some(ExprAction::OldDot),
        marks::CALL_EXPR => Some(ExprAction::Call),
        marks::BUILTIN_EXPR => Some(ExprAction::Call),
        marks::CALL_OF_EXPR => Some(ExprAction::FacilityCall),
        marks::IS_INITIAL => Some(ExprAction::IsInitial),
        marks::BARS => Some(ExprAction::Bars),
        marks::SINGLE => Some(ExprAction::Single),
        marks::PARENTHESES => Some(ExprAction::Parentheses),
        marks::TUPLE => Some(ExprAction::Tuple),
        marks::RESULT_EQUALS => Some(ExprAction::ResultEquals),
        marks::RESULT_CLAUSE => Some(ExprAction::Binary(BinOp::Eq)),
        _ => None,
    }
}
