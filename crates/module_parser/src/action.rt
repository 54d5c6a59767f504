//! The actions of the grammar, by what they build.

ghost use Rattle.std.specs.Prelude.{◌≡◌};
ghost use Rattle.module_parser.specs.Marks.{action_of, component_action, facility_action, heading_action, model_action, statement_action};

use expr_parser::{ExprAction, expr_action};
use res_ast::Mode;
use res_grammar::marks;

/// What is done where an action stands in the derivation of a file.
#[derive(Clone, Copy, Debug, PartialEq, Eq)]
pub enum Action {
    OfExpr(ExprAction),
    OfHeading(HeadingAction),
    OfModel(ModelAction),
    OfFacility(FacilityAction),
    OfStatement(StmtAction),
    OfComponent(ComponentAction),
}

/// The actions that build names, clauses, types and headings.
#[derive(Clone, Copy, Debug, PartialEq, Eq)]
pub enum HeadingAction {
    Names,
    AddName,
    SomeClause,
    NoClause,
    Formals,
    AddFormal(bool),
    Mode(Mode),
    TypeWord,
    TypeAlone,
    TypeOf,
    ResultType,
    NoResult,
    Params,
    AddParams,
    TypedNames,
    AddTypedNames,
    Headings,
    Heading,
    Signature,
    AddHeading,
}

/// The actions that build models and families.
#[derive(Clone, Copy, Debug, PartialEq, Eq)]
pub enum ModelAction {
    Z,
    B,
    Str,
    Param,
    Factors,
    AddFactor,
    Product,
    Family,
    NoFamily,
}

/// The actions that build facilities.
#[derive(Clone, Copy, Debug, PartialEq, Eq)]
pub enum FacilityAction {
    Facilities,
    Args,
    TypeArg,
    NumberArg,
    MinusArg,
    RealizedBy,
    NotRealized,
    Pairs,
    AddPair,
    AddFacility,
}

/// The actions that build statements.
#[derive(Clone, Copy, Debug, PartialEq, Eq)]
pub enum StmtAction {
    Block,
    PlaceAlone,
    PlaceField,
    Places,
    AddPlace,
    Swap,
    Assign,
    Call,
    FacilityCall,
    If,
    While,
}

/// The actions that build procedures and components.
#[derive(Clone, Copy, Debug, PartialEq, Eq)]
pub enum ComponentAction {
    Concept,
    Enhancement,
    Realization,
    Module,
    OfConcept,
    ForConcept,
    Rep,
    NoRep,
    Locals,
    AddLocal,
    Procedures,
    AddProcedure,
}

fn heading_action(number: u8) -> Option<HeadingAction>
    ensures { result ≡ heading_action number }
{
    match number {
        marks::NAMES => Some(HeadingAction::Names),
        marks::ADD_NAME => Some(HeadingAction::AddName),
        marks::SOME_CLAUSE => Some(HeadingAction::SomeClause),
        marks::NO_CLAUSE => Some(HeadingAction::NoClause),
        marks::FORMALS => Some(HeadingAction::Formals),
        marks::TYPE_FORMAL => Some(HeadingAction::AddFormal(true)),
        marks::INTEGER_FORMAL => Some(HeadingAction::AddFormal(false)),
        marks::MODE_ALTERS => Some(HeadingAction::Mode(Mode::Alters)),
        marks::MODE_CLEARS => Some(HeadingAction::Mode(Mode::Clears)),
        marks::MODE_EVALUATES => Some(HeadingAction::Mode(Mode::Evaluates)),
        marks::MODE_PRESERVES => Some(HeadingAction::Mode(Mode::Preserves)),
        marks::MODE_REPLACES => Some(HeadingAction::Mode(Mode::Replaces)),
        marks::MODE_RESTORES => Some(HeadingAction::Mode(Mode::Restores)),
        marks::MODE_UPDATES => Some(HeadingAction::Mode(Mode::Updates)),
        marks::TYPE_WORD => Some(HeadingAction::TypeWord),
        marks::TYPE_ALONE => Some(HeadingAction::TypeAlone),
        marks::TYPE_OF => Some(HeadingAction::TypeOf),
        marks::RESULT_TYPE => Some(HeadingAction::ResultType),
        marks::NO_RESULT => Some(HeadingAction::NoResult),
        marks::PARAMS => Some(HeadingAction::Params),
        marks::ADD_PARAMS => Some(HeadingAction::AddParams),
        marks::TYPED_NAMES => Some(HeadingAction::TypedNames),
        marks::ADD_TYPED_NAMES => Some(HeadingAction::AddTypedNames),
        marks::HEADINGS => Some(HeadingAction::Headings),
        marks::HEADING => Some(HeadingAction::Heading),
        marks::SIGNATURE => Some(HeadingAction::Signature),
        marks::ADD_HEADING => Some(HeadingAction::AddHeading),
        _ => None,
    }
}

fn model_action(number: u8) -> Option<ModelAction>
    ensures { result ≡ model_action number }
{
    match number {
        marks::MODEL_Z => Some(ModelAction::Z),
        marks::MODEL_B => Some(ModelAction::B),
        marks::MODEL_STR => Some(ModelAction::Str),
        marks::MODEL_PARAM => Some(ModelAction::Param),
        marks::FACTORS => Some(ModelAction::Factors),
        marks::ADD_FACTOR => Some(ModelAction::AddFactor),
        marks::MODEL_PRODUCT => Some(ModelAction::Product),
        marks::FAMILY => Some(ModelAction::Family),
        marks::NO_FAMILY => Some(ModelAction::NoFamily),
        _ => None,
    }
}

fn facility_action(number: u8) -> Option<FacilityAction>
    ensures { result ≡ facility_action number }
{
    match number {
        marks::FACS => Some(FacilityAction::Facilities),
        marks::ARGS => Some(FacilityAction::Args),
        marks::TYPE_ARG => Some(FacilityAction::TypeArg),
        marks::NUMBER_ARG => Some(FacilityAction::NumberArg),
        marks::MINUS_ARG => Some(FacilityAction::MinusArg),
        marks::REALIZED_BY => Some(FacilityAction::RealizedBy),
        marks::NOT_REALIZED => Some(FacilityAction::NotRealized),
        marks::PAIRS => Some(FacilityAction::Pairs),
        marks::ADD_PAIR => Some(FacilityAction::AddPair),
        marks::ADD_FAC => Some(FacilityAction::AddFacility),
        _ => None,
    }
}

fn statement_action(number: u8) -> Option<StmtAction>
    ensures { result ≡ statement_action number }
{
    match number {
        marks::BLOCK => Some(StmtAction::Block),
        marks::PLACE_ALONE => Some(StmtAction::PlaceAlone),
        marks::PLACE_FIELD => Some(StmtAction::PlaceField),
        marks::PLACES => Some(StmtAction::Places),
        marks::ADD_PLACE => Some(StmtAction::AddPlace),
        marks::SWAP => Some(StmtAction::Swap),
        marks::ASSIGN => Some(StmtAction::Assign),
        marks::CALL_LOCAL => Some(StmtAction::Call),
        marks::CALL_BUILTIN => Some(StmtAction::Call),
        marks::CALL_OF => Some(StmtAction::FacilityCall),
        marks::IF => Some(StmtAction::If),
        marks::WHILE => Some(StmtAction::While),
        _ => None,
    }
}

fn component_action(number: u8) -> Option<ComponentAction>
    ensures { result ≡ component_action number }
{
    match number {
        marks::CONCEPT => Some(ComponentAction::Concept),
        marks::ENHANCEMENT => Some(ComponentAction::Enhancement),
        marks::REALIZATION => Some(ComponentAction::Realization),
        marks::MODULE => Some(ComponentAction::Module),
        marks::OF_CONCEPT => Some(ComponentAction::OfConcept),
        marks::FOR_CONCEPT => Some(ComponentAction::ForConcept),
        marks::REP => Some(ComponentAction::Rep),
        marks::NO_REP => Some(ComponentAction::NoRep),
        marks::LOCALS => Some(ComponentAction::Locals),
        marks::ADD_LOCAL => Some(ComponentAction::AddLocal),
        marks::PROCEDURES => Some(ComponentAction::Procedures),
        marks::ADD_PROCEDURE => Some(ComponentAction::AddProcedure),
        _ => None,
    }
}

/// What the action of this number builds, if it builds something.
pub fn action_of(number: u8) -> Option<Action>
    ensures { result ≡ action_of number }
{
    if let Some(action) = expr_action(number) {
        return Some(Action::OfExpr(action));
    }
    if let Some(action) = statement_action(number) {
        return Some(Action::OfStatement(action));
    }
    if let Some(action) = heading_action(number) {
        return Some(Action::OfHeading(action));
    }
    if let Some(action) = facility_action(number) {
        return Some(Action::OfFacility(action));
    }
    if let Some(action) = model_action(number) {
        return Some(Action::OfModel(action));
    }
    match component_action(number) {
        Some(action) => Some(Action::OfComponent(action)),
        None => None,
    }
}
