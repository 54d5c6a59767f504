//! Reading a file.

ghost use Rattle.std.specs.Prelude.{◌≡◌, ◌<◌, ◌^◌, List, length, IfErr, IfOk, MatchResult, OnOk};
ghost use Rattle.ll_grammar.specs.Grammar.{built};
ghost use Rattle.expr_parser.specs.Built.{no_token};
ghost use Rattle.res_ast.specs.declared.component.Component.{Component};
ghost use Rattle.res_lexer.specs.Tokens.{AreTokens};
ghost use Rattle.module_parser.specs.Stacks.{outset};
ghost use Rattle.module_parser.specs.Spelling.{act_by, components_of, files, lexical, LexicalOrNoMemory, OneRefusal, OneSpelling, RefusesOrNoMemory, SpelledIsNotRefused, Spells, TokensRefusedOrNoMemory, TokensSpell};

use crate::action::action_of;
use crate::state::State;
use expr_parser::{SyntaxError, refusal};
use ll_grammar::Move;
use math_terms::NoMemory;
use res_ast::Component;
use res_grammar::{Reading, one_answer, read_text};
use res_lexer::{LexError, Token, TokenKind, tokens};
use sqlite_items::Items;
use std::alloc::{AllocError, Global};

/// Why a file spells nothing.
#[derive(Clone, Copy, Debug, PartialEq, Eq)]
pub enum ParseError {
    Lex(LexError),
    Syntax(SyntaxError),
    NoMemory,
}

impl From<NoMemory> for ParseError {
    ghost use Rattle.std.specs.Prelude.{◌≡◌};
    ghost use Rattle.module_parser.specs.declared.reading.ParseError.TheVariants.{NoMemory};

    ghost from_gives = { λ _ e. e ≡ NoMemory };

    fn from(_error: NoMemory) -> ParseError {
        ParseError::NoMemory
    }
}

impl From<AllocError> for ParseError {
    ghost use Rattle.std.specs.Prelude.{◌≡◌};
    ghost use Rattle.module_parser.specs.declared.reading.ParseError.TheVariants.{NoMemory};

    ghost from_gives = { λ _ e. e ≡ NoMemory };

    fn from(_error: AllocError) -> ParseError {
        ParseError::NoMemory
    }
}

// What the action of this number builds.
fn act_by(alloc: Global, number: u8, last: &Token, state: &mut State) -> Result<(), NoMemory>
    ensures { OnOk result (state.new ≡ act_by number last.now state.old) }
{
    match action_of(number) {
        Some(action) => state.act(alloc, action, last),
        None => Ok(()),
    }
}

// What the moves build of the tokens.
fn build(alloc: Global, moves: &[Move], tokens: &[Token]) -> Result<State, NoMemory>
    ensures { IfOk result (λ s. s ≡ (built files moves.now tokens.now (record { last = no_token; state = outset })).state) }
{
    let none = Token {
        at: 0,
        len: 0,
        kind: TokenKind::Symbol(0),
    };
    let mut last = &none;
    let mut left = tokens;
    let mut state = State::new(alloc);
    for step in moves {
        match step {
            Move::Shift => {
                if let Some((token, after)) = left.split_first() {
                    last = token;
                    left = after;
                }
            }
            Move::Expand(_, _) => {}
            Move::Act(number) => act_by(alloc, *number, last, &mut state)?,
        }
    }
    Ok(state)
}

// The components that the moves build of the tokens.
fn components(alloc: Global, moves: &[Move], tokens: &[Token]) -> Result<Items<Component>, NoMemory>
    ensures { IfOk result (λ cs. cs ≡ components_of moves.now tokens.now) }
{
    let State { components, .. } = build(alloc, moves, tokens)?;
    Ok(components)
}

// The lexer's refusal as one of a file.
fn lexical(error: LexError) -> ParseError
    ensures { result ≡ lexical error }
{
    match error {
        LexError::NoMemory => ParseError::NoMemory,
        LexError::BadByte { .. }
        | LexError::OpenComment { .. }
        | LexError::LongName { .. }
        | LexError::BigLiteral { .. } => ParseError::Lex(error),
    }
}

// The tokens of a file.
#[tactic(auto, using(crate::proofs::Spelled::lexical_refuses))]
fn tokens_of(alloc: Global, bytes: &[u8]) -> Result<Vec<Token>, ParseError>
    requires { length bytes.now < 2 ^ 32 }
    ensures found { IfOk result (λ ts. AreTokens bytes.now ts.items) }
    ensures refused { IfErr result (λ e. LexicalOrNoMemory bytes.now e) }
{
    match tokens(alloc, bytes) {
        Ok(tokens) => Ok(tokens),
        Err(error) => Err(lexical(error)),
    }
}

// The components that tokens spell. `end` is the file's length.
#[tactic(auto, using(crate::proofs::Spelled::tokens_spell, crate::proofs::Spelled::tokens_refused))]
fn components_in(alloc: Global, tokens: &[Token], end: u32) -> Result<Items<Component>, ParseError>
    ensures read { IfOk result (λ cs. TokensSpell tokens.now cs) }
    ensures refused { IfErr result (λ e. TokensRefusedOrNoMemory tokens.now end e) }
{
    match read_text(alloc, tokens)? {
        Reading::Text(moves) => Ok(components(alloc, &moves, tokens)?),
        Reading::Refused(place, fault) => {
            Err(ParseError::Syntax(refusal(tokens, place, fault, end)))
        }
    }
}

// The components that a file spells.
#[tactic(auto, using(crate::proofs::Spelled::file_spells, crate::proofs::Spelled::file_lexical, crate::proofs::Spelled::file_refused))]
fn read_file(alloc: Global, bytes: &[u8]) -> Result<Items<Component>, ParseError>
    requires { length bytes.now < 2 ^ 32 }
    ensures read { IfOk result (λ cs. Spells bytes.now cs) }
    ensures refused { IfErr result (λ e. RefusesOrNoMemory bytes.now e) }
{
    let tokens = tokens_of(alloc, bytes)?;
    components_in(alloc, &tokens, bytes.len() as u32)
}

/// The components that a file spells, or why it spells none: the first breach of a token, wherever it stands, and else the
/// first token that is refused, or the file's end.
pub fn parse(alloc: Global, bytes: &[u8]) -> Result<Items<Component>, ParseError>
    requires { length bytes.now < 2 ^ 32 }
    ensures read { IfOk result (λ cs. Spells bytes.now cs) }
    ensures refused { IfErr result (λ e. RefusesOrNoMemory bytes.now e) }

    // A file that spells components is read, but for want of memory.
    ensures only { (cs : List Component) → Spells bytes.now cs → MatchResult result (λ found. found ≡ cs) (λ e. e ≡ ParseError.NoMemory) }
{
    one_spelling();
    read_file(alloc, bytes)
}

/// A file spells one list of components at most, and none where it is refused; it is refused at one place for one reason.
pub fn one_spelling()
    ensures one { OneSpelling }
    ensures read { SpelledIsNotRefused }
    ensures refused { OneRefusal }
{
    one_answer();
}
