//! The answer of a case. Its word is `tokens`, `identifier` (whether the text is one, and how many bytes of it are), `reserved`, `text` and
//! `part` (whether its tokens are a file, or begin with an expression of so many tokens), `expression`, `parse`, `print` (the canonical texts
//! of what the text spells), `table` (whom the last of its components names), or `check` (the first mistake of each of its components).

ghost use Rattle.std.specs.Prelude.{◌≤◌, length};

use crate::checks::say_checks;
use crate::deciphering::deciphered;
use crate::saying::{put_lines, say_fault, say_lex_error, say_syntax_error, say_tokens};
use crate::tables::say_table;
use crate::trees::{say_component, say_expr};
use crate::trouble::Trouble;
use expr_parser::expr;
use identifiers::{identifier_len, is_identifier};
use module_parser::{ParseError, parse};
use res_ast::Component;
use res_grammar::{PrefixReading, Reading, read_expression, read_text};
use res_lexer::{Token, is_reserved, tokens};
use res_printer::print_component;
use std::alloc::Global;

// Texts of so many bytes at most are read.
const MOST_BYTES: usize = 1_000_000;

fn say_text(alloc: Global, said: &mut String, tokens: &[Token]) -> Result<(), Trouble> {
    match read_text(alloc, tokens)? {
        Reading::Text(_) => Ok(said.push_str(" text")?),
        Reading::Refused(token, fault) => say_fault(said, fault, token),
    }
}

fn say_part(alloc: Global, said: &mut String, tokens: &[Token]) -> Result<(), Trouble> {
    match read_expression(alloc, tokens)? {
        PrefixReading::Text(count, _) => {
            write!(said, " an expression of {count}")?;
            Ok(())
        }
        PrefixReading::Refused(token, fault) => say_fault(said, fault, token),
    }
}

fn say_expression(
    alloc: Global,
    said: &mut String,
    tokens: &[Token],
    end: u32,
) -> Result<(), Trouble> {
    match expr(alloc, tokens, 0, end) {
        Ok((e, next)) => {
            say_expr(said, &e)?;
            write!(said, " next {next}")?;
            Ok(())
        }
        Err(e) => say_syntax_error(said, e),
    }
}

fn say_trees(said: &mut String, components: &[Component]) -> Result<(), Trouble> {
    for component in components {
        say_component(said, component)?;
    }
    Ok(())
}

fn say_printed(alloc: Global, said: &mut String, components: &[Component]) -> Result<(), Trouble> {
    for component in components {
        let text = print_component(alloc, component)?;
        said.push_str(" ")?;
        put_lines(said, &text)?;
    }
    Ok(())
}

fn say_components(
    alloc: Global,
    said: &mut String,
    word: &str,
    components: &[Component],
) -> Result<(), Trouble> {
    match word {
        "print" => say_printed(alloc, said, components),
        "table" => say_table(alloc, said, components),
        "check" => say_checks(alloc, said, components),
        _ => say_trees(said, components),
    }
}

fn say_parsed(alloc: Global, said: &mut String, word: &str, bytes: &[u8]) -> Result<(), Trouble>
    requires { length bytes.now ≤ 1000000 }
{
    match parse(alloc, bytes) {
        Ok(components) => say_components(alloc, said, word, components.as_slice()),
        Err(ParseError::Lex(e)) => say_lex_error(said, &e),
        Err(ParseError::Syntax(e)) => say_syntax_error(said, e),
        Err(ParseError::NoMemory) => Err(Trouble::NoMemory),
    }
}

fn say_of_tokens(
    alloc: Global,
    said: &mut String,
    word: &str,
    tokens: &[Token],
    end: u32,
) -> Result<(), Trouble> {
    match word {
        "tokens" => say_tokens(said, tokens),
        "text" => say_text(alloc, said, tokens),
        "part" => say_part(alloc, said, tokens),
        "expression" => say_expression(alloc, said, tokens, end),
        _ => Err(Trouble::NotUnderstood),
    }
}

fn say_answer(alloc: Global, said: &mut String, word: &str, bytes: &[u8]) -> Result<(), Trouble>
    requires { length bytes.now ≤ 1000000 }
{
    match word {
        "identifier" => {
            let is = is_identifier(bytes);
            let len = identifier_len(bytes);
            write!(said, " {is} {len}")?;
            Ok(())
        }
        "reserved" => {
            let is = is_reserved(bytes);
            write!(said, " {is}")?;
            Ok(())
        }
        "parse" | "print" | "table" | "check" => say_parsed(alloc, said, word, bytes),
        _ => match tokens(alloc, bytes) {
            Ok(tokens) => say_of_tokens(alloc, said, word, &tokens, bytes.len() as u32),
            Err(e) => say_lex_error(said, &e),
        },
    }
}

/// What the call of a case answers.
pub fn answer(alloc: Global, line: &str) -> Result<String, Trouble> {
    let mut said = String::from_str(alloc, " =")?;
    match line.split_once(" | ") {
        Some((word, text)) => {
            let bytes = deciphered(alloc, text)?;
            if bytes.len() > MOST_BYTES {
                return Err(Trouble::NotUnderstood);
            }
            say_answer(alloc, &mut said, word, &bytes)?;
        }
        None => return Err(Trouble::NotUnderstood),
    }
    Ok(said)
}
