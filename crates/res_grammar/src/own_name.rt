//! The operation's own name, in the ensures clause of a heading with a result.

ghost use Rattle.std.specs.Prelude.{◌≡◌, Some, None, MatchBool, option_copied};
ghost use Rattle.res_grammar.specs.Classes.{class_of, remembered, word_of};
ghost use Rattle.res_grammar.specs.OwnName.{OwnNames, answers, own, own_act, own_step};

use crate::class::{remember, same_word, word_of};
use crate::classes::ID;
use crate::marks::{HEAD, OPEN_OPERATION, RESULT_CLAUSE, RESULT_EQUALS, SAME};
use res_lexer::Token;
use std::marker::Model;

/// What is asked of the next token, if it is an identifier: nothing, that it is the operation's own name, or another one.
#[derive(Clone, Copy, Debug, PartialEq, Eq)]
pub enum Asks {
    Any,
    Own,
    Other,
}

/// The watch on the operation's own name.
#[derive(Drop)]
pub struct OwnName<'a> {
    last: Option<&'a [u8]>,
    operation: Option<&'a [u8]>,
    in_result: bool,
    asks: Asks,
}

impl<'a> Model for OwnName<'a> {
    ghost use Rattle.std.specs.Prelude.{option_copied};
    ghost use Rattle.res_grammar.specs.OwnName.{OwnNames};

    ghost Value = { OwnNames };

    ghost view = { λ s. record { last = option_copied s.last; operation = option_copied s.operation; in_result = s.in_result; asks = s.asks } };
}

fn answers(asks: Asks, operation: Option<&[u8]>, word: &[u8]) -> bool
    ensures { result ≡ answers asks (option_copied operation.entry) word.now }
{
    match operation {
        None => true,
        Some(name) => match asks {
            Asks::Any => true,
            Asks::Own => same_word(name, word),
            Asks::Other => !same_word(name, word),
        },
    }
}

impl<'a> OwnName<'a> {
    /// Nothing has been read.
    pub fn new() -> OwnName<'a>
        ensures { result ≡ own.outset }
    {
        OwnName {
            last: None,
            operation: None,
            in_result: false,
            asks: Asks::Any,
        }
    }

    fn step(&mut self, class: u8, word: &'a [u8]) -> bool
        ensures { MatchBool result (own_step class word.now self.old ≡ Some self.new) (own_step class word.now self.old ≡ None) }
    {
        let passes = class != ID || answers(self.asks, self.operation, word);
        if passes {
            self.last = remember(class, word, self.last);
            self.asks = Asks::Any;
        }
        passes
    }

    /// A token of this class comes: whether it may.
    pub fn shift(&mut self, class: u8, token: &'a Token) -> bool
        requires { class ≡ class_of token.now.kind }
        ensures { MatchBool result (own.shift token.now self.old ≡ Some self.new) (own.shift token.now self.old ≡ None) }
    {
        self.step(class, word_of(&token.kind))
    }

    /// An action is met.
    pub fn act(&mut self, action: u8)
        ensures { self.new ≡ own_act action self.old }
    {
        if action == OPEN_OPERATION {
            self.operation = self.last;
        } else if action == SAME {
            self.asks = Asks::Own;
        } else if action == HEAD {
            if self.in_result {
                self.asks = Asks::Other;
            }
        } else if action == RESULT_EQUALS {
            self.in_result = true;
        } else if action == RESULT_CLAUSE {
            self.in_result = false;
        }
    }
}
