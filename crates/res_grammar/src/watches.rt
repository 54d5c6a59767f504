//! All that is watched, and why a token is refused.

ghost use Rattle.std.specs.Prelude.{◌≡◌, MatchOption, OnOk};
ghost use Rattle.res_grammar.specs.Classes.{class_of};
ghost use Rattle.res_grammar.specs.ClosingName.{closing};
ghost use Rattle.res_grammar.specs.Faults.{Passed, Refuses, acted};
ghost use Rattle.res_grammar.specs.Nesting.{nesting};
ghost use Rattle.res_grammar.specs.OwnName.{own};

use crate::closing_name::ClosingName;
use crate::nesting::Nesting;
use crate::own_name::OwnName;
use res_lexer::Token;
use std::alloc::{AllocError, Global};

/// Why a token is refused: no text goes on with it, its nodes are too deep, or it is not the name that has to close.
#[derive(Clone, Copy, Debug, PartialEq, Eq)]
pub enum Fault {
    Expected,
    TooDeep,
    EndName,
}

/// All that is watched.
#[derive(Drop)]
pub struct Watches<'a> {
    pub own: OwnName<'a>,
    pub nesting: Nesting,
    pub closing: ClosingName<'a>,
}

impl<'a> Watches<'a> {
    /// Nothing has been read.
    pub fn new(alloc: Global) -> Watches<'a>
        ensures own { result.own ≡ own.outset }
        ensures nesting { result.nesting ≡ nesting.outset }
        ensures closing { result.closing ≡ closing.outset }
    {
        Watches {
            own: OwnName::new(),
            nesting: Nesting::new(alloc),
            closing: ClosingName::new(),
        }
    }

    /// A token of this class comes: the fault, if there is one.
    pub fn shift(&mut self, class: u8, token: &'a Token) -> Option<Fault>
        requires { class ≡ class_of token.now.kind }
        ensures { MatchOption result (Passed token.now self.old self.new) (λ fault. Refuses fault token.now self.old) }
    {
        if !self.own.shift(class, token) {
            return Some(Fault::Expected);
        }
        if !self.nesting.shift() {
            return Some(Fault::TooDeep);
        }
        if !self.closing.shift(class, token) {
            return Some(Fault::EndName);
        }
        None
    }

    /// An action is met.
    pub fn act(&mut self, action: u8) -> Result<(), AllocError>
        ensures { OnOk result (self.new ≡ acted action self.old) }
    {
        self.own.act(action);
        self.closing.act(action);
        self.nesting.act(action)
    }
}
