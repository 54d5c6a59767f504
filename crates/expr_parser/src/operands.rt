//! The trees of an expression that is being read.

ghost use Rattle.std.specs.Prelude.{◌≡◌, IfOk, OnOk};
ghost use Rattle.expr_parser.specs.Actions.{act, add_expr, added, bars_of, binary_of, call_of, dot_form, expr, facility_call_of, first_or, initial_of, kept, list, minus_literal_of, minus_of, no_operands, no_word, not_of, old_dot_form, old_form, open_list, others, put, single_of, tuple_of, with_word, without_expr, without_list, without_word, word, word_form};

use crate::action::ExprAction;
use crate::word::{Word, name_of, negated, value_of};
use ll_grammar::Stack;
use math_terms::NoMemory;
use res_ast::{BinOp, Expr, Form};
use res_lexer::Token;
use sqlite_items::{Boxed, Items};
use std::alloc::Global;

/// What has been read of expressions and not yet used, the newest first.
#[derive(Drop)]
pub struct Operands {
    pub words: Stack<Word>,
    pub exprs: Stack<Expr>,
    pub lists: Stack<Items<Expr>>,
}

/// What is on top of a stack, or else the default.
pub fn taken<T: Drop>(stack: &mut Stack<T>, or: T) -> T
    ensures value { result ≡ first_or or stack.old }
    ensures rest { stack.new ≡ others stack.old }
{
    match stack.pop() {
        Some(item) => item,
        None => or,
    }
}

/// Puts an item at the end of the list on top.
pub fn add_to<T: Drop>(alloc: Global, lists: &mut Stack<Items<T>>, item: T) -> Result<(), NoMemory>
    ensures { OnOk result (lists.new ≡ added item lists.old) }
{
    let mut list = taken(lists, Items::new(alloc));
    list.push(item)?;
    lists.push(list)?;
    Ok(())
}

/// The word on top, or else one that is not there.
pub fn taken_word(alloc: Global, words: &mut Stack<Word>) -> Result<Word, NoMemory>
    ensures { IfOk result (λ word. (word ≡ first_or no_word words.old) × (words.new ≡ others words.old)) }
{
    match words.pop() {
        Some(word) => Ok(word),
        None => Word::none(alloc),
    }
}

impl Operands {
    /// Nothing has been read.
    pub fn new(alloc: Global) -> Operands
        ensures { result ≡ no_operands }
    {
        Operands {
            words: Stack::new(alloc),
            exprs: Stack::new(alloc),
            lists: Stack::new(alloc),
        }
    }

    /// Takes the newest word off.
    pub fn take_word(&mut self, alloc: Global) -> Result<Word, NoMemory>
        ensures { IfOk result (λ w. (w ≡ word self.old) × (self.new ≡ without_word self.old)) }
    {
        taken_word(alloc, &mut self.words)
    }

    /// Takes the newest expression off.
    pub fn take_expr(&mut self) -> Expr
        ensures value { result ≡ expr self.old }
        ensures rest { self.new ≡ without_expr self.old }
    {
        taken(
            &mut self.exprs,
            Expr {
                at: 0,
                form: Form::Empty,
            },
        )
    }

    /// Takes the newest list off.
    pub fn take_list(&mut self, alloc: Global) -> Items<Expr>
        ensures value { result ≡ list self.old }
        ensures rest { self.new ≡ without_list self.old }
    {
        taken(&mut self.lists, Items::new(alloc))
    }

    fn take_boxed(&mut self, alloc: Global) -> Result<Boxed<Expr>, NoMemory>
        ensures { IfOk result (λ x. (x ≡ expr self.old) × (self.new ≡ without_expr self.old)) }
    {
        Ok(Boxed::new(alloc, self.take_expr())?)
    }

    fn put(&mut self, at: u32, form: Form) -> Result<(), NoMemory>
        ensures { OnOk result (self.new ≡ put at form self.old) }
    {
        self.exprs.push(Expr { at, form })?;
        Ok(())
    }

    fn keep(&mut self, alloc: Global, last: &Token) -> Result<(), NoMemory>
        ensures { OnOk result (self.new ≡ with_word (kept last.now) self.old) }
    {
        let word = Word::of(alloc, last)?;
        self.words.push(word)?;
        Ok(())
    }

    fn open_list(&mut self, alloc: Global) -> Result<(), NoMemory>
        ensures { OnOk result (self.new ≡ open_list self.old) }
    {
        self.lists.push(Items::new(alloc))?;
        Ok(())
    }

    fn add_expr(&mut self, alloc: Global) -> Result<(), NoMemory>
        ensures { OnOk result (self.new ≡ add_expr self.old) }
    {
        let item = self.take_expr();
        add_to(alloc, &mut self.lists, item)
    }

    fn binary(&mut self, alloc: Global, op: BinOp) -> Result<(), NoMemory>
        ensures { OnOk result (self.new ≡ binary_of op self.old) }
    {
        let Word { at, .. } = self.take_word(alloc)?;
        let right = self.take_boxed(alloc)?;
        let left = self.take_boxed(alloc)?;
        self.put(at, Form::Binary(op, left, right))
    }

    fn not(&mut self, alloc: Global) -> Result<(), NoMemory>
        ensures { OnOk result (self.new ≡ not_of self.old) }
    {
        let Word { at, .. } = self.take_word(alloc)?;
        let part = self.take_boxed(alloc)?;
        self.put(at, Form::Not(part))
    }

    fn minus(&mut self, alloc: Global) -> Result<(), NoMemory>
        ensures { OnOk result (self.new ≡ minus_of self.old) }
    {
        let Word { at, .. } = self.take_word(alloc)?;
        let part = self.take_boxed(alloc)?;
        self.put(at, Form::Minus(part))
    }

    fn bars(&mut self, alloc: Global) -> Result<(), NoMemory>
        ensures { OnOk result (self.new ≡ bars_of self.old) }
    {
        let Word { at, .. } = self.take_word(alloc)?;
        let part = self.take_boxed(alloc)?;
        self.put(at, Form::Bars(part))
    }

    fn single(&mut self, alloc: Global) -> Result<(), NoMemory>
        ensures { OnOk result (self.new ≡ single_of self.old) }
    {
        let Word { at, .. } = self.take_word(alloc)?;
        let part = self.take_boxed(alloc)?;
        self.put(at, Form::Single(part))
    }

    fn initial(&mut self, alloc: Global) -> Result<(), NoMemory>
        ensures { OnOk result (self.new ≡ initial_of self.old) }
    {
        let Word { at, name } = self.take_word(alloc)?;
        let part = self.take_boxed(alloc)?;
        self.put(at, Form::Initial(name, part))
    }

    fn word(&mut self, alloc: Global) -> Result<(), NoMemory>
        ensures { OnOk result (self.new ≡ word_form self.old) }
    {
        let Word { at, name } = self.take_word(alloc)?;
        self.put(at, Form::Word(name))
    }

    fn old(&mut self, alloc: Global) -> Result<(), NoMemory>
        ensures { OnOk result (self.new ≡ old_form self.old) }
    {
        let Word { name, .. } = self.take_word(alloc)?;
        let Word { at, .. } = self.take_word(alloc)?;
        self.put(at, Form::Old(name))
    }

    fn dot(&mut self, alloc: Global) -> Result<(), NoMemory>
        ensures { OnOk result (self.new ≡ dot_form self.old) }
    {
        let part = self.take_word(alloc)?;
        let Word { at, name } = self.take_word(alloc)?;
        self.put(at, Form::Dot(name, part.name))
    }

    fn old_dot(&mut self, alloc: Global, last: &Token) -> Result<(), NoMemory>
        ensures { OnOk result (self.new ≡ old_dot_form last.now self.old) }
    {
        let Word { name, .. } = self.take_word(alloc)?;
        let Word { at, .. } = self.take_word(alloc)?;
        let part = name_of(alloc, last)?;
        self.put(at, Form::OldDot(name, part))
    }

    fn call(&mut self, alloc: Global) -> Result<(), NoMemory>
        ensures { OnOk result (self.new ≡ call_of self.old) }
    {
        let Word { at, name } = self.take_word(alloc)?;
        let args = self.take_list(alloc);
        self.put(at, Form::Call(None, name, args))
    }

    fn facility_call(&mut self, alloc: Global) -> Result<(), NoMemory>
        ensures { OnOk result (self.new ≡ facility_call_of self.old) }
    {
        let operation = self.take_word(alloc)?;
        let Word { at, name } = self.take_word(alloc)?;
        let args = self.take_list(alloc);
        self.put(at, Form::Call(Some(name), operation.name, args))
    }

    fn tuple(&mut self, alloc: Global) -> Result<(), NoMemory>
        ensures { OnOk result (self.new ≡ tuple_of self.old) }
    {
        let Word { at, .. } = self.take_word(alloc)?;
        let parts = self.take_list(alloc);
        self.put(at, Form::Tuple(parts))
    }

    fn minus_literal(&mut self, alloc: Global, last: &Token) -> Result<(), NoMemory>
        ensures { OnOk result (self.new ≡ minus_literal_of last.now self.old) }
    {
        let Word { at, .. } = self.take_word(alloc)?;
        self.put(at, Form::Int(negated(value_of(last))))
    }

    fn drop_word(&mut self, alloc: Global) -> Result<(), NoMemory>
        ensures { OnOk result (self.new ≡ without_word self.old) }
    {
        self.take_word(alloc)?;
        Ok(())
    }

    fn result_equals(&mut self, alloc: Global, last: &Token) -> Result<(), NoMemory>
        ensures { OnOk result (self.new ≡ with_word (kept last.now) (word_form self.old)) }
    {
        self.word(alloc)?;
        self.keep(alloc, last)
    }

    /// What the action builds, where this token was read last.
    pub fn act(&mut self, alloc: Global, action: ExprAction, last: &Token) -> Result<(), NoMemory>
        ensures { OnOk result (self.new ≡ act action last.now self.old) }
    {
        match action {
            ExprAction::Keep => self.keep(alloc, last),
            ExprAction::OpenList => self.open_list(alloc),
            ExprAction::AddExpr => self.add_expr(alloc),
            ExprAction::Binary(op) => self.binary(alloc, op),
            ExprAction::Not => self.not(alloc),
            ExprAction::Minus => self.minus(alloc),
            ExprAction::Literal => self.put(last.at, Form::Int(value_of(last))),
            ExprAction::MinusLiteral => self.minus_literal(alloc, last),
            ExprAction::Truth(b) => self.put(last.at, Form::Truth(b)),
            ExprAction::MinInt => self.put(last.at, Form::MinInt),
            ExprAction::MaxInt => self.put(last.at, Form::MaxInt),
            ExprAction::EmptyString => self.put(last.at, Form::Empty),
            ExprAction::Word => self.word(alloc),
            ExprAction::Old => self.old(alloc),
            ExprAction::Dot => self.dot(alloc),
            ExprAction::OldDot => self.old_dot(alloc, last),
            ExprAction::Call => self.call(alloc),
            ExprAction::FacilityCall => self.facility_call(alloc),
            ExprAction::IsInitial => self.initial(alloc),
            ExprAction::Bars => self.bars(alloc),
            ExprAction::Single => self.single(alloc),
            ExprAction::Parentheses => self.drop_word(alloc),
            ExprAction::Tuple => self.tuple(alloc),
            ExprAction::ResultEquals => self.result_equals(alloc, last),
        }
    }
}
