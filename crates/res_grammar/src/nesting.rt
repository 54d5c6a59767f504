//! Nesting: no path of a text's tree has more than 200 nodes.

ghost use Rattle.std.specs.Prelude.{◌≡◌, ◌-◌, max, Some, None, MatchBool, OnOk};
ghost use Rattle.res_lexer.specs.declared.token.Token.{Token};
ghost use Rattle.res_grammar.specs.Nesting.{first_or_0, nesting, nesting_act, nesting_shift, others, raised};

use crate::marks::{BEGIN, ENTER, FINISH, LEAVE, OPERATED, OPERATOR};
use ll_grammar::Stack;
use std::alloc::{AllocError, Global};

/// The watch on nesting: the open nodes, the deepest place of the operand so far, those of the operands around it, and the
/// deepest place of all. Past the limit all depths are one more than it.
#[derive(Drop)]
pub struct Nesting {
    pub depth: u32,
    pub deep: u32,
    pub saved: Stack<u32>,
    pub deepest: u32,
}

/// How many nodes a path may have.
pub const LIMIT: u32 = 200;

fn one_deeper(depth: u32) -> u32
    ensures { result ≡ raised depth }
{
    if depth > LIMIT { LIMIT + 1 } else { depth + 1 }
}

fn one_higher(depth: u32) -> u32
    ensures { result ≡ depth - 1 }
{
    if depth > 0 { depth - 1 } else { 0 }
}

fn larger(a: u32, b: u32) -> u32
    ensures { result ≡ max a b }
{
    if a < b { b } else { a }
}

impl Nesting {
    /// Nothing has been read.
    pub fn new(alloc: Global) -> Nesting
        ensures { result ≡ nesting.outset }
    {
        Nesting {
            depth: 0,
            deep: 0,
            saved: Stack::new(alloc),
            deepest: 0,
        }
    }

    fn taken(&mut self) -> u32
        ensures value { result ≡ first_or_0 self.old.saved }
        ensures rest { self.new ≡ record self.old { saved = others self.old.saved } }
    {
        match self.saved.pop() {
            Some(number) => number,
            None => 0,
        }
    }

    /// Whether a token may come.
    pub fn shift(&self) -> bool
        ensures { (t : Token) → MatchBool result (nesting_shift t self.now ≡ Some self.now) (nesting_shift t self.now ≡ None) }
    {
        self.deepest <= LIMIT
    }

    /// An action is met.
    pub fn act(&mut self, action: u8) -> Result<(), AllocError>
        ensures { OnOk result (self.new ≡ nesting_act action self.old) }
    {
        if action == ENTER {
            self.depth = one_deeper(self.depth);
            self.deep = larger(self.deep, self.depth);
            self.deepest = larger(self.deepest, self.depth);
        } else if action == LEAVE {
            self.depth = one_higher(self.depth);
        } else if action == BEGIN {
            self.saved.push(self.deep)?;
            self.deep = self.depth;
        } else if action == FINISH {
            let before = self.taken();
            self.deep = larger(before, self.deep);
        } else if action == OPERATOR {
            let left = one_deeper(self.deep);
            self.saved.push(left)?;
            self.depth = one_deeper(self.depth);
            self.deep = self.depth;
            self.deepest = larger(self.deepest, left);
        } else if action == OPERATED {
            let left = self.taken();
            self.deep = larger(left, self.deep);
            self.depth = one_higher(self.depth);
        }
        Ok(())
    }
}
