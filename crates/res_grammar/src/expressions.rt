//! Reading an expression as long as one goes on.

ghost use Rattle.std.specs.Prelude.{IfOk};
ghost use Rattle.res_grammar.specs.Expressions.{expression_table};
ghost use Rattle.res_grammar.specs.Faults.{IsNoTextUpTo, IsRefusedAt, IsTextBy, IsTextUpTo, MatchPrefix, MatchReading};
ghost use Rattle.res_grammar.specs.Language.{language_rules};

use crate::grammars::grammar_of_expressions;
use crate::reading::{Reading, before, laws, read_with};
use crate::watches::Fault;
use ll_grammar::Move;
use res_lexer::Token;
use std::alloc::{AllocError, Global};

/// What reading as long as some expression goes on gives.
#[derive(Drop)]
pub enum PrefixReading {
    /// The number of tokens before the first with which none goes on, and the one derivation of the expression that they are.
    Text(usize, Vec<Move>),
    /// The number of the first token that is refused, or with which none goes on, and why.
    Refused(usize, Fault),
}

// The tokens as one expression.
fn read_whole(alloc: Global, tokens: &[Token]) -> Result<Reading, AllocError>
    ensures text { IfOk result (λ r. MatchReading r (λ moves. IsTextBy language_rules expression_table.start moves tokens.now) (λ place fault. Unit {0})) }
    ensures refused { IfOk result (λ r. MatchReading r (λ moves. Unit {0}) (λ place fault. IsRefusedAt language_rules expression_table.start tokens.now place fault)) }
{
    read_with(alloc, &grammar_of_expressions(), tokens)
}

/// The expression that ends before the first token with which none goes on.
pub fn read_expression(alloc: Global, tokens: &[Token]) -> Result<PrefixReading, AllocError>
    ensures text { IfOk result (λ r. MatchPrefix r (λ place moves. IsTextUpTo language_rules expression_table.start tokens.now place moves) (λ place fault. Unit {0})) }
    ensures refused { IfOk result (λ r. MatchPrefix r (λ place moves. Unit {0}) (λ place fault. IsNoTextUpTo language_rules expression_table.start tokens.now place fault)) }
{
    laws();
    match read_whole(alloc, tokens)? {
        Reading::Text(moves) => Ok(PrefixReading::Text(tokens.len(), moves)),
        Reading::Refused(place, Fault::Expected) => match read_whole(
            alloc,
            before(tokens, place),
        )? {
            Reading::Text(moves) => Ok(PrefixReading::Text(place, moves)),
            Reading::Refused(_, _) => Ok(PrefixReading::Refused(place, Fault::Expected)),
        },
        Reading::Refused(place, fault) => Ok(PrefixReading::Refused(place, fault)),
    }
}
