//! The trees of a file that is being read.

ghost use Rattle.std.specs.Prelude.{◌≡◌, ◌++◌, ◌∷◌, [], map, IfOk, OnOk};
ghost use Rattle.expr_parser.specs.Actions.{first_or, others};
ghost use Rattle.module_parser.specs.Actions.{file_act};
ghost use Rattle.module_parser.specs.Stacks.{clause_0, expr_0, list, names, outset, type_of, without_1_expr, without_1_word, without_list, word_0, words};

use crate::action::Action;
use expr_parser::{Operands, Word, taken};
use ll_grammar::Stack;
use math_terms::{Name, NoMemory};
use res_ast::{
    Component, Expr, FacArg, FacDecl, Family, Formal, Heading, LocalOp, MPart, Mode, PType, Param,
    Place, Procedure, Rep, Stmt,
};
use res_lexer::Token;
use sqlite_items::Items;
use std::alloc::Global;

/// What has been read of a file and not yet used, the newest first, but for the parts of a model and the components.
#[derive(Drop)]
pub struct State {
    pub operands: Operands,
    pub names: Stack<Items<Word>>,
    pub clauses: Stack<Option<Expr>>,
    pub modes: Stack<Mode>,
    pub types: Stack<PType>,
    pub results: Stack<Option<PType>>,
    pub params: Stack<Items<Param>>,
    pub headings: Stack<Heading>,
    pub heading_lists: Stack<Items<Heading>>,
    pub fields: Stack<Items<(Name, PType)>>,
    pub model: Items<MPart>,
    pub factors: Stack<Items<Name>>,
    pub families: Stack<Option<Family>>,
    pub formals: Stack<Items<Formal>>,
    pub places: Stack<Place>,
    pub place_lists: Stack<Items<Place>>,
    pub blocks: Stack<Items<Stmt>>,
    pub args: Stack<Items<FacArg>>,
    pub optional: Stack<Option<Name>>,
    pub pairs: Stack<Items<(Name, Name)>>,
    pub facilities: Stack<Items<FacDecl>>,
    pub reps: Stack<Option<Rep>>,
    pub locals: Stack<Items<LocalOp>>,
    pub procedures: Stack<Items<Procedure>>,
    pub components: Items<Component>,
}

impl State {
    /// Nothing has been read.
    pub fn new(alloc: Global) -> State
        ensures { result ≡ outset }
    {
        State {
            operands: Operands::new(alloc),
            names: Stack::new(alloc),
            clauses: Stack::new(alloc),
            modes: Stack::new(alloc),
            types: Stack::new(alloc),
            results: Stack::new(alloc),
            params: Stack::new(alloc),
            headings: Stack::new(alloc),
            heading_lists: Stack::new(alloc),
            fields: Stack::new(alloc),
            model: Items::new(alloc),
            factors: Stack::new(alloc),
            families: Stack::new(alloc),
            formals: Stack::new(alloc),
            places: Stack::new(alloc),
            place_lists: Stack::new(alloc),
            blocks: Stack::new(alloc),
            args: Stack::new(alloc),
            optional: Stack::new(alloc),
            pairs: Stack::new(alloc),
            facilities: Stack::new(alloc),
            reps: Stack::new(alloc),
            locals: Stack::new(alloc),
            procedures: Stack::new(alloc),
            components: Items::new(alloc),
        }
    }

    /// Takes the newest word off.
    pub fn take_word(&mut self, alloc: Global) -> Result<Word, NoMemory>
        ensures { IfOk result (λ w. (w ≡ word_0 self.old) × (self.new ≡ without_1_word self.old)) }
    {
        self.operands.take_word(alloc)
    }

    /// Takes the newest expression off.
    pub fn take_expr(&mut self) -> Expr
        ensures value { result ≡ expr_0 self.old }
        ensures rest { self.new ≡ without_1_expr self.old }
    {
        self.operands.take_expr()
    }

    /// Takes the newest list of expressions off.
    pub fn take_list(&mut self, alloc: Global) -> Items<Expr>
        ensures value { result ≡ list self.old }
        ensures rest { self.new ≡ without_list self.old }
    {
        self.operands.take_list(alloc)
    }

    /// Takes the newest clause off.
    pub fn take_clause(&mut self) -> Option<Expr>
        ensures value { result ≡ clause_0 self.old }
        ensures rest { self.new ≡ record self.old { clauses = others self.old.clauses } }
    {
        taken(&mut self.clauses, None)
    }

    /// Takes the newest type off.
    pub fn take_type(&mut self, alloc: Global) -> Result<PType, NoMemory>
        ensures { IfOk result (λ t. (t ≡ type_of self.old) × (self.new ≡ record self.old { types = others self.old.types })) }
    {
        match self.types.pop() {
            Some(ptype) => Ok(ptype),
            None => Ok(PType {
                at: 0,
                facility: None,
                name: Name::new(alloc, &[])?,
            }),
        }
    }

    /// Takes the newest list of words off, the first word on top.
    pub fn take_words(&mut self, alloc: Global) -> Result<Stack<Word>, NoMemory>
        ensures { IfOk result (λ ws. (ws ≡ words self.old) × (self.new ≡ record self.old { names = others self.old.names })) }
    {
        stacked(alloc, taken(&mut self.names, Items::new(alloc)))
    }

    /// Takes the newest list of words off, as names.
    pub fn take_names(&mut self, alloc: Global) -> Result<Items<Name>, NoMemory>
        ensures { IfOk result (λ ns. (ns ≡ names self.old) × (self.new ≡ record self.old { names = others self.old.names })) }
    {
        names_of(alloc, self.take_words(alloc)?)
    }

    /// What the action builds, where this token was read last.
    pub fn act(&mut self, alloc: Global, action: Action, last: &Token) -> Result<(), NoMemory>
        ensures { OnOk result (self.new ≡ file_act action last.now self.old) }
    {
        match action {
            Action::OfExpr(a) => self.operands.act(alloc, a, last),
            Action::OfHeading(a) => self.heading_act(alloc, a, last),
            Action::OfModel(a) => self.model_act(alloc, a, last),
            Action::OfFacility(a) => self.facility_act(alloc, a, last),
            Action::OfStatement(a) => self.statement_act(alloc, a),
            Action::OfComponent(a) => self.component_act(alloc, a, last),
        }
    }
}

// The items, the first one on top.
#[tactic(auto, using(crate::proofs::Lists::put_before))]
fn stacked<T: Drop>(alloc: Global, items: Items<T>) -> Result<Stack<T>, NoMemory>
    ensures { IfOk result (λ s. s ≡ items) }
{
    let mut left = items;
    let mut out = Stack::new(alloc);
    while let Some(item) = left.pop() {
        out.push(item)?;
    }
    Ok(out)
}

#[tactic(auto, using(crate::proofs::Lists::put_before))]
fn names_of(alloc: Global, words: Stack<Word>) -> Result<Items<Name>, NoMemory>
    ensures { IfOk result (λ ns. ns ≡ map (λ w. w.name) words) }
{
    let mut left = words;
    let mut out = Items::new(alloc);
    while let Some(word) = left.pop() {
        out.push(word.name)?;
    }
    Ok(out)
}
