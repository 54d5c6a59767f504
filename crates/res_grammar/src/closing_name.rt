//! Closing names.

ghost use Rattle.std.specs.Prelude.{◌≡◌, Some, None, MatchBool, option_copied};
ghost use Rattle.res_grammar.specs.Classes.{class_of, remembered, word_of};
ghost use Rattle.res_grammar.specs.ClosingName.{closing, closing_act, closing_step, repeats};

use crate::class::{remember, same_word, word_of};
use crate::classes::ID;
use crate::marks::{CLOSE_COMPONENT, CLOSE_OPERATION, OPEN_COMPONENT, OPEN_OPERATION};
use res_lexer::Token;
use std::marker::Model;

/// The watch on closing names.
#[derive(Drop)]
pub struct ClosingName<'a> {
    last: Option<&'a [u8]>,
    component: Option<&'a [u8]>,
    operation: Option<&'a [u8]>,
    closes: Option<&'a [u8]>,
}

impl<'a> Model for ClosingName<'a> {
    ghost use Rattle.std.specs.Prelude.{option_copied};
    ghost use Rattle.res_grammar.specs.ClosingName.{ClosingNames};

    ghost Value = { ClosingNames };

    ghost view = { λ s. record { last = option_copied s.last; component = option_copied s.component; operation = option_copied s.operation; closes = option_copied s.closes } };
}

fn repeats(closes: Option<&[u8]>, class: u8, word: &[u8]) -> bool
    ensures { result ≡ repeats (option_copied closes.entry) class word.now }
{
    match closes {
        None => true,
        Some(name) => class == ID && same_word(name, word),
    }
}

impl<'a> ClosingName<'a> {
    /// Nothing has been read.
    pub fn new() -> ClosingName<'a>
        ensures { result ≡ closing.outset }
    {
        ClosingName {
            last: None,
            component: None,
            operation: None,
            closes: None,
        }
    }

    fn step(&mut self, class: u8, word: &'a [u8]) -> bool
        ensures { MatchBool result (closing_step class word.now self.old ≡ Some self.new) (closing_step class word.now self.old ≡ None) }
    {
        let passes = repeats(self.closes, class, word);
        if passes {
            self.last = remember(class, word, self.last);
            self.closes = None;
        }
        passes
    }

    /// A token of this class comes: whether it may.
    pub fn shift(&mut self, class: u8, token: &'a Token) -> bool
        requires { class ≡ class_of token.now.kind }
        ensures { MatchBool result (closing.shift token.now self.old ≡ Some self.new) (closing.shift token.now self.old ≡ None) }
    {
        self.step(class, word_of(&token.kind))
    }

    /// An action is met.
    pub fn act(&mut self, action: u8)
        ensures { self.new ≡ closing_act action self.old }
    {
        if action == OPEN_COMPONENT {
            self.component = self.last;
        } else if action == OPEN_OPERATION {
            self.operation = self.last;
        } else if action == CLOSE_COMPONENT {
            self.closes = self.component;
        } else if action == CLOSE_OPERATION {
            self.closes = self.operation;
        }
    }
}
