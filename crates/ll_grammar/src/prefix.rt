//! Reading as long as some text goes on.

ghost use Rattle.std.specs.Prelude.{◌≡◌, ◌≤◌, IfOk, length, take};
ghost use Rattle.ll_grammar.specs.Predictive.{Certificate};
ghost use Rattle.ll_grammar.specs.Texts.{EndsAt, NoText, Read};
ghost use Rattle.ll_grammar.specs.Reader.{IsLl1, MatchPrefix, place_of, rules_of, table_of};

use crate::form::{Grammar, Move};
use crate::reader::{Answer, derive};
use std::alloc::{AllocError, Global};

/// What reading as long as some text goes on gives.
#[derive(Drop)]
pub enum Prefix {
    /// The number of words before the first with which no text goes on, and the one derivation of these.
    Text(usize, Vec<Move>),
    /// The same number, where the words before are no text.
    NoText(usize),
}

fn before(classes: &[u8], place: usize) -> &[u8]
    requires { place ≤ length classes.now }
    ensures { result.now ≡ take place classes.now }
{
    &classes[..place]
}

/// The words before the first with which no text goes on, and their derivation if they are a text.
pub fn derive_prefix(alloc: Global, grammar: &Grammar, classes: &[u8]) -> Result<Prefix, AllocError>
    ghost certificate: { Certificate }
    requires { IsLl1 grammar.now certificate }
    ensures ends { IfOk result (λ p. EndsAt (rules_of grammar.now) grammar.now.start classes.now (place_of p)) }
    ensures text { IfOk result (λ p. MatchPrefix p (λ place moves. Read (rules_of grammar.now) grammar.now.start (take place classes.now) moves) (λ place. Unit {0})) }
    ensures none { IfOk result (λ p. MatchPrefix p (λ place moves. Unit {0}) (λ place. NoText (rules_of grammar.now) grammar.now.start (take place classes.now))) }
{
    match derive(alloc, grammar, classes)? {
        Answer::Read(moves) => Ok(Prefix::Text(classes.len(), moves)),
        Answer::Refused(place, _) => match derive(alloc, grammar, before(classes, place))? {
            Answer::Read(moves) => Ok(Prefix::Text(place, moves)),
            Answer::Refused(_, _) => Ok(Prefix::NoText(place)),
        },
    }
}
