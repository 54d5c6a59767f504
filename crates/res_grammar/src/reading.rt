//! Reading a file: the derivation of its tokens, and then the watches on the way of its moves.

ghost use Rattle.std.specs.Prelude.{◌≡◌, ◌+◌, true, IfOk, MatchOption, ◌≤◌, length, take};
ghost use Rattle.ll_grammar.specs.Grammar.{shifts};
ghost use Rattle.ll_grammar.specs.Predictive.{Certificate};
ghost use Rattle.ll_grammar.specs.Reader.{IsLl1, rules_of, table_of};
ghost use Rattle.ll_grammar.specs.Watch.{have_classes};
ghost use Rattle.res_grammar.specs.Language.{language_rules, language_table};
ghost use Rattle.res_grammar.specs.Expressions.{expression_table};
ghost use Rattle.res_grammar.specs.Classes.{classes_of};
ghost use Rattle.res_grammar.specs.Faults.{AllPass, IsRefusedAt, IsTextBy, MatchReading, OneDerivation, OneRefusal, StopsAt, TextsAreNotRefused};
ghost use Rattle.res_grammar.specs.Numbers.{class_count};
ghost use Rattle.res_grammar.specs.Laws.{Laws};

use crate::class::classes_of;
use crate::closing_name::ClosingName;
use crate::grammars::grammar_of_texts;
use crate::nesting::Nesting;
use crate::own_name::OwnName;
use crate::watches::{Fault, Watches};
use ll_grammar::{Answer, Grammar, Move, along, derive, fair_watch, one_way};
use res_lexer::Token;
use std::alloc::{AllocError, Global};

/// What reading a text gives.
#[derive(Drop)]
pub enum Reading {
    /// The one derivation of the text.
    Text(Vec<Move>),
    /// The first token that is refused, or the number of tokens, and why.
    Refused(usize, Fault),
}

/// The laws of the watches. The call does nothing.
pub fn laws()
    ensures { Laws }
{
    along::<OwnName, Token>();
    along::<Nesting, Token>();
    along::<ClosingName, Token>();
    one_way::<OwnName, Token>();
    one_way::<Nesting, Token>();
    one_way::<ClosingName, Token>();
    fair_watch::<OwnName, Token>();
}

// The first token that a watch refuses, on the way of these moves.
fn walk(
    alloc: Global,
    moves: &[Move],
    classes: &[u8],
    tokens: &[Token],
) -> Result<Option<(usize, Fault)>, AllocError>
    requires counted { shifts moves.now ≡ length tokens.now }
    requires classed { classes.now ≡ classes_of tokens.now }
    ensures { IfOk result (λ o. MatchOption o (AllPass moves.now tokens.now) (λ stop. StopsAt moves.now tokens.now stop.0 stop.1)) }
{
    laws();
    let mut watches = Watches::new(alloc);
    let mut place = 0;
    for step in moves {
        match step {
            Move::Shift => {
                if place < tokens.len() {
                    if let Some(fault) = watches.shift(classes[place], &tokens[place]) {
                        return Ok(Some((place, fault)));
                    }
                    place += 1;
                }
            }
            Move::Expand(_, _) => {}
            Move::Act(action) => watches.act(*action)?,
        }
    }
    Ok(None)
}

/// The items before this place.
pub fn before<T>(items: &[T], place: usize) -> &[T]
    requires { place ≤ length items.now }
    ensures { result.now ≡ take place items.now }
{
    &items[..place]
}

// The derivation of a text of this grammar, or where it is refused and why.
pub fn read_with(alloc: Global, grammar: &Grammar, tokens: &[Token]) -> Result<Reading, AllocError>
    ghost certificate: { Certificate }
    requires predictive { IsLl1 grammar.now certificate }
    requires classes { have_classes class_count (rules_of grammar.now) ≡ true }
    ensures text { IfOk result (λ r. MatchReading r (λ moves. IsTextBy (rules_of grammar.now) grammar.now.start moves tokens.now) (λ place fault. Unit {0})) }
    ensures refused { IfOk result (λ r. MatchReading r (λ moves. Unit {0}) (λ place fault. IsRefusedAt (rules_of grammar.now) grammar.now.start tokens.now place fault)) }
{
    laws();
    let classes = classes_of(alloc, tokens)?;
    match derive(alloc, grammar, &classes)? {
        Answer::Read(moves) => match walk(alloc, &moves, &classes, tokens)? {
            None => Ok(Reading::Text(moves)),
            Some((place, fault)) => Ok(Reading::Refused(place, fault)),
        },
        Answer::Refused(place, moves) => match walk(
            alloc,
            &moves,
            before(&classes, place),
            before(tokens, place),
        )? {
            None => Ok(Reading::Refused(place, Fault::Expected)),
            Some((first, fault)) => Ok(Reading::Refused(first, fault)),
        },
    }
}

/// The derivation of a file's tokens, or the number of the first token that is refused and why.
pub fn read_text(alloc: Global, tokens: &[Token]) -> Result<Reading, AllocError>
    ensures text { IfOk result (λ r. MatchReading r (λ moves. IsTextBy language_rules language_table.start moves tokens.now) (λ place fault. Unit {0})) }
    ensures refused { IfOk result (λ r. MatchReading r (λ moves. Unit {0}) (λ place fault. IsRefusedAt language_rules language_table.start tokens.now place fault)) }
{
    read_with(alloc, &grammar_of_texts(), tokens)
}

/// A text is not refused, and what is refused is so at one place for one reason; of files and of expressions.
pub fn one_answer()
    ensures refusal { OneRefusal language_rules language_table.start }
    ensures text { TextsAreNotRefused language_rules language_table.start }
    ensures refused_expression { OneRefusal language_rules expression_table.start }
    ensures expression { TextsAreNotRefused language_rules expression_table.start }
{
    laws();
}

/// The tokens of a file have one derivation at most. The call does nothing.
pub fn one_derivation()
    ensures { OneDerivation language_rules language_table.start }
{
    ll_grammar::one_derivation();
}
