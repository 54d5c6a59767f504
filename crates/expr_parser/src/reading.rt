//! Reading an expression.

ghost use Rattle.std.specs.Prelude.{◌≡◌, ◌≤◌, drop, length, take, IfErr, IfOk, OnOk};
ghost use Rattle.ll_grammar.specs.Grammar.{built};
ghost use Rattle.expr_parser.specs.Actions.{no_operands};
ghost use Rattle.expr_parser.specs.Built.{act_by, expr_of, expressions, kind_of, no_token, refusal_of, ReadsExpr, RefusesOrNoMemory};

use crate::action::expr_action;
use crate::operands::Operands;
use crate::syntax::{SyntaxError, SyntaxKind};
use ll_grammar::Move;
use math_terms::NoMemory;
use res_ast::Expr;
use res_grammar::{Fault, PrefixReading, place_of, read_expression};
use res_lexer::{Token, TokenKind};
use std::alloc::Global;

// What the action of this number builds.
fn act_by(alloc: Global, number: u8, last: &Token, state: &mut Operands) -> Result<(), NoMemory>
    ensures { OnOk result (state.new ≡ act_by number last.now state.old) }
{
    match expr_action(number) {
        Some(action) => state.act(alloc, action, last),
        None => Ok(()),
    }
}

// What the moves build of the tokens.
fn build(alloc: Global, moves: &[Move], tokens: &[Token]) -> Result<Operands, NoMemory>
    ensures { IfOk result (λ s. s ≡ (built expressions moves.now tokens.now (record { last = no_token; state = no_operands })).state) }
{
    let none = Token {
        at: 0,
        len: 0,
        kind: TokenKind::Symbol(0),
    };
    let mut last = &none;
    let mut left = tokens;
    let mut state = Operands::new(alloc);
    for step in moves {
        match step {
            Move::Shift => {
                if let Some((token, after)) = left.split_first() {
                    last = token;
                    left = after;
                }
            }
            Move::Expand(_, _) => {}
            Move::Act(number) => act_by(alloc, *number, last, &mut state)?,
        }
    }
    Ok(state)
}

/// The kind of refusal that a fault is.
pub fn kind_of(fault: Fault) -> SyntaxKind
    ensures { result ≡ kind_of fault }
{
    match fault {
        Fault::Expected => SyntaxKind::Expected,
        Fault::TooDeep => SyntaxKind::TooDeep,
        Fault::EndName => SyntaxKind::EndName,
    }
}

/// The refusal of the token of this number, or of the end of the file where there are not so many.
pub fn refusal(tokens: &[Token], place: usize, fault: Fault, end: u32) -> SyntaxError
    ensures { result ≡ refusal_of tokens.now place fault end }
{
    SyntaxError {
        at: place_of(tokens, place, end),
        kind: kind_of(fault),
    }
}

// The tokens from one on.
#[tactic(auto, using(crate::proofs::Tokens::drop_all))]
fn after(tokens: &[Token], from: usize) -> &[Token]
    ensures { result.now ≡ drop from tokens.now }
{
    if from < tokens.len() {
        &tokens[from..]
    } else {
        &[]
    }
}

// The first tokens.
fn before(tokens: &[Token], count: usize) -> &[Token]
    requires { count ≤ length tokens.now }
    ensures { result.now ≡ take count tokens.now }
{
    &tokens[..count]
}

// The expression that the moves build of the first tokens.
fn value(alloc: Global, moves: &[Move], tokens: &[Token], count: usize) -> Result<Expr, NoMemory>
    requires { count ≤ length tokens.now }
    ensures { IfOk result (λ e. e ≡ expr_of moves.now (take count tokens.now)) }
{
    let mut state = build(alloc, moves, before(tokens, count))?;
    Ok(state.take_expr())
}

/// Reads an expression as long as one goes on with the tokens from one on, numbered from 0, and gives the number of the next
/// token. `end` is the file's length, the place of a refusal where the tokens end too early.
pub fn expr(
    alloc: Global,
    tokens: &[Token],
    from: usize,
    end: u32,
) -> Result<(Expr, usize), SyntaxError>
    ensures read { IfOk result (λ r. ReadsExpr tokens.now from r.0 r.1) }
    ensures refused { IfErr result (λ e. RefusesOrNoMemory tokens.now from end e) }
{
    let rest = after(tokens, from);
    match read_expression(alloc, rest)? {
        PrefixReading::Text(count, moves) => {
            let e = value(alloc, &moves, rest, count)?;
            Ok((e, from + count))
        }
        PrefixReading::Refused(place, fault) => Err(refusal(rest, place, fault, end)),
    }
}
