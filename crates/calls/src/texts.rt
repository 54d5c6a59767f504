//! The calls on texts: `tokens`, `module` (what a file is), `conditions`, `unproved` (the first one), `meaning:FUEL:INPUT` and `code`, whose
//! text is a file; `command`, whose text is the words of a command line.

ghost use Rattle.main_form.specs.Formed.{IsForm};
ghost use Rattle.source_meaning.specs.Formed.{IsFormed};
ghost use Rattle.source_meaning.specs.declared.linked.Proc.{Proc};

use crate::saying::{put_bytes, say, say_at, say_bytes, say_number, say_term};
use crate::trouble::Trouble;
use crate::words::{parsed, parsed_list, two_parts, words_of};
use command_words::{Command, read_command};
use expr_parser::SyntaxKind;
use main_form::{Module, Shape, built_is_formed, main_module};
use main_prover::{conditions, first_unproved, link_main};
use math_terms::{Desc, Name, Term, VcName};
use module_parser::{ParseError, parse};
use res_ast::Component;
use res_lexer::{LexError, Token, TokenKind, tokens};
use source_meaning::{End, Linked, MeaningError, Trace, WrongKind, meaning};
use stack_machine::{CodeError, Image, compile};
use std::alloc::Global;
use vc_sequents::{Vc, VcKind};

// Texts of so many bytes at most are read.
const MOST_BYTES: usize = 1_000_000;

fn say_lex_error(said: &mut String, e: &LexError) -> Result<(), Trouble> {
    match e {
        LexError::BadByte { at } => say_at(said, "BadByte", *at),
        LexError::OpenComment { at } => say_at(said, "OpenComment", *at),
        LexError::LongName { at } => say_at(said, "LongName", *at),
        LexError::BigLiteral { at } => say_at(said, "BigLiteral", *at),
        LexError::NoMemory => Err(Trouble::NoMemory),
    }
}

// `PLACE+LENGTH:TOKEN`, where a symbol is written by its number.
fn say_token(said: &mut String, token: &Token) -> Result<(), Trouble> {
    let at = token.at;
    let len = token.len;
    write!(said, " {at}+{len}:")?;
    match &token.kind {
        TokenKind::Word(name) => put_bytes(said, name.bytes())?,
        TokenKind::Literal(value) => write!(said, "{value}")?,
        TokenKind::Symbol(symbol) => write!(said, "#{symbol}")?,
    }
    Ok(())
}

fn say_tokens(alloc: Global, said: &mut String, text: &[u8]) -> Result<(), Trouble> {
    if text.len() > MOST_BYTES {
        return Err(Trouble::NotUnderstood);
    }
    match tokens(alloc, text) {
        Ok(tokens) => {
            for token in tokens.as_slice() {
                say_token(said, token)?;
            }
            Ok(())
        }
        Err(e) => say_lex_error(said, &e),
    }
}

fn syntax_word(kind: SyntaxKind) -> Result<&'static str, Trouble> {
    match kind {
        SyntaxKind::Expected => Ok("Expected"),
        SyntaxKind::TooDeep => Ok("TooDeep"),
        SyntaxKind::EndName => Ok("EndName"),
        SyntaxKind::NoMemory => Err(Trouble::NoMemory),
    }
}

fn say_parse_error(said: &mut String, e: ParseError) -> Result<(), Trouble> {
    match e {
        ParseError::Lex(e) => say_lex_error(said, &e),
        ParseError::Syntax(e) => {
            let word = syntax_word(e.kind)?;
            say_at(said, word, e.at)
        }
        ParseError::NoMemory => Err(Trouble::NoMemory),
    }
}

fn kind_word(kind: VcKind) -> &'static str {
    match kind {
        VcKind::Facility => "facility",
        VcKind::Constraint => "constraint",
        VcKind::InitConvention => "init_convention",
        VcKind::InitEnsures => "init_ensures",
        VcKind::Requires => "requires",
        VcKind::Range => "range",
        VcKind::Divisor => "divisor",
        VcKind::Entry => "entry",
        VcKind::Keep => "keep",
        VcKind::Progress => "progress",
        VcKind::Metric => "metric",
        VcKind::Ensures => "ensures",
        VcKind::ModeExit => "mode_exit",
        VcKind::Convention => "convention",
    }
}

fn say_name(said: &mut String, name: &VcName) -> Result<(), Trouble> {
    say_bytes(said, name.component.bytes())?;
    say_bytes(said, name.part.bytes())?;
    say_number(said, i64::from(name.number))
}

fn say_head(said: &mut String, vc: &Vc) -> Result<(), Trouble> {
    say(said, "/")?;
    say_name(said, &vc.name)?;
    say_at(said, kind_word(vc.kind), vc.at)?;
    say(said, "(")
}

fn say_variables(said: &mut String, variables: &[(Name, Desc)]) -> Result<(), Trouble> {
    for variable in variables {
        say_bytes(said, variable.0.bytes())?;
    }
    say(said, ")")
}

fn say_hypotheses(alloc: Global, said: &mut String, hyps: &[Term]) -> Result<(), Trouble> {
    for hypothesis in hyps {
        say(said, ";")?;
        say_term(alloc, said, hypothesis)?;
    }
    say(said, "|-")
}

/// A condition, after a bar: its name, its kind and place, its variables in brackets, its hypotheses and its goal.
pub fn say_condition(alloc: Global, said: &mut String, vc: &Vc) -> Result<(), Trouble> {
    say_head(said, vc)?;
    say_variables(said, vc.sequent.vars.as_slice())?;
    say_hypotheses(alloc, said, vc.sequent.hyps.as_slice())?;
    say_term(alloc, said, &vc.sequent.goal)
}

fn say_conditions(alloc: Global, said: &mut String, m: &Module) -> Result<(), Trouble> {
    let found = conditions(alloc, m)?;
    for vc in found.as_slice() {
        say_condition(alloc, said, vc)?;
    }
    Ok(())
}

fn say_unproved(alloc: Global, said: &mut String, m: &Module) -> Result<(), Trouble>
    requires { IsForm m.now }
{
    match first_unproved(alloc, m)? {
        None => say(said, "none"),
        Some(unproved) => {
            say_number(said, i64::from(unproved.number))?;
            say_at(said, kind_word(unproved.kind), unproved.at)
        }
    }
}

fn end_word(end: End) -> &'static str {
    match end {
        End::Done => "done",
        End::Spent => "spent",
        End::Deep => "deep",
        End::Wrong(WrongKind::Range) => "wrong range",
        End::Wrong(WrongKind::Divisor) => "wrong divisor",
        End::Wrong(WrongKind::Index) => "wrong index",
        End::Wrong(WrongKind::EndOfInput) => "wrong end of input",
    }
}

// How a run ends, the number of its events, and its output.
fn say_trace(said: &mut String, trace: &Trace) -> Result<(), Trouble> {
    let events = trace.events.len();
    say(said, end_word(trace.outcome))?;
    write!(said, " events {events} output")?;
    for n in trace.output.as_slice() {
        say_number(said, *n)?;
    }
    Ok(())
}

fn say_run(
    alloc: Global,
    said: &mut String,
    l: &Linked,
    input: &[i64],
    fuel: u64,
) -> Result<(), Trouble>
    requires { (p : Proc) × IsFormed l.now p }
{
    match meaning(alloc, l, input, fuel) {
        Ok(trace) => say_trace(said, &trace),
        Err(MeaningError::Wide) => say(said, "wide"),
        Err(MeaningError::NoMemory) => Err(Trouble::NoMemory),
    }
}

fn say_meaning(alloc: Global, said: &mut String, m: &Module, rest: &str) -> Result<(), Trouble>
    requires { IsForm m.now }
{
    let (fuel, input) = two_parts(rest)?;
    let fuel = parsed::<i64>(fuel)?.unsigned_abs();
    let input = parsed_list::<i64>(alloc, input)?;
    let linked = link_main(alloc, m)?;
    say_run(alloc, said, &linked, input.as_slice(), fuel)
}

fn say_instructions(said: &mut String, image: &Image) -> Result<(), Trouble> {
    for instr in image.code.as_slice() {
        write!(said, " {instr:?}")?;
    }
    Ok(())
}

fn say_code(alloc: Global, said: &mut String, m: &Module) -> Result<(), Trouble>
    requires { IsForm m.now }
{
    let linked = link_main(alloc, m)?;
    match compile(alloc, &linked) {
        Ok(image) => say_instructions(said, &image),
        Err(CodeError::CodeTooLong) => say(said, "too long"),
        Err(CodeError::NoMemory) => Err(Trouble::NoMemory),
    }
}

fn module_answer(
    alloc: Global,
    said: &mut String,
    name: &str,
    rest: &str,
    m: &Module,
) -> Result<(), Trouble>
    requires { IsForm m.now }
{
    match name {
        "module" => say_bytes(said, m.name.bytes()),
        "conditions" => say_conditions(alloc, said, m),
        "unproved" => say_unproved(alloc, said, m),
        "meaning" => say_meaning(alloc, said, m, rest),
        "code" => say_code(alloc, said, m),
        _ => Err(Trouble::NotUnderstood),
    }
}

fn say_not_built(said: &mut String, name: &Name, at: u32) -> Result<(), Trouble> {
    say(said, "NotBuilt")?;
    say_bytes(said, name.bytes())?;
    say(said, "at")?;
    say_number(said, i64::from(at))
}

fn file_answer(
    alloc: Global,
    said: &mut String,
    name: &str,
    rest: &str,
    components: &[Component],
) -> Result<(), Trouble> {
    built_is_formed();
    match main_module(alloc, components)? {
        Shape::Module(m) => module_answer(alloc, said, name, rest, &m),
        Shape::NotBuilt { name, at } => say_not_built(said, &name, at),
    }
}

fn read_and_answer(
    alloc: Global,
    said: &mut String,
    name: &str,
    rest: &str,
    text: &[u8],
) -> Result<(), Trouble> {
    if text.len() > MOST_BYTES {
        return Err(Trouble::NotUnderstood);
    }
    match parse(alloc, text) {
        Ok(components) => file_answer(alloc, said, name, rest, components.as_slice()),
        Err(e) => say_parse_error(said, e),
    }
}

fn say_command(alloc: Global, said: &mut String, text: &str) -> Result<(), Trouble> {
    let words = words_of(alloc, text)?;
    match read_command(&words) {
        None => say(said, "nothing"),
        Some(Command::Other) => say(said, "other"),
        Some(Command::Run { file, steps }) => {
            write!(said, " run {file} for {steps}")?;
            Ok(())
        }
    }
}

/// What a call on a text answers.
pub fn text_answer(
    alloc: Global,
    said: &mut String,
    name: &str,
    rest: &str,
    text: &str,
) -> Result<(), Trouble> {
    match name {
        "tokens" => say_tokens(alloc, said, text.as_bytes()),
        "command" => say_command(alloc, said, text),
        _ => read_and_answer(alloc, said, name, rest, text.as_bytes()),
    }
}
