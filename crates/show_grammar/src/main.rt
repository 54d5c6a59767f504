//! Writes the grammar of component files as text, from the tables that the reader goes by.
#![tactic(auto)]

ghost use Rattle.ll_grammar.specs.Reader.{IsFlat};

mod names;

use ll_grammar::{Grammar, Symbol, symbols_of};
use names::{ACTIONS, CLASSES, NOTES, PARTS};
use res_grammar::grammar_of_texts;
use std::io;

// The name of this number, or a mark that there is none.
fn name_of(names: &[&'static str], number: usize) -> &'static str {
    match names.get(number) {
        Some(name) => *name,
        None => "?",
    }
}

fn name_of_symbol(symbol: Symbol) -> &'static str {
    match symbol {
        Symbol::Terminal(class) => name_of(&CLASSES, usize::from(class)),
        Symbol::Nonterminal(part) => name_of(&PARTS, usize::from(part)),
        Symbol::Action(action) => name_of(&ACTIONS, usize::from(action)),
    }
}

// The lines that stand before the ways of a part.
fn show_notes(rt: &HostRuntime, part: usize) -> io::Result<()> {
    for (number, line) in NOTES.iter() {
        if usize::from(*number) == part {
            println!(rt; "{line}")?;
        }
    }
    Ok(())
}

fn show_way(rt: &HostRuntime, part: usize, symbols: &[Symbol]) -> io::Result<()> {
    let mut line = String::new(rt.alloc());
    line.push_str(name_of(&PARTS, part))?;
    line.push_str(" ->")?;
    for symbol in symbols {
        line.push_str(" ")?;
        line.push_str(name_of_symbol(*symbol))?;
    }
    println!(rt; "{line}")
}

// A part's notes and its ways, which are those of the grammar from this number to that one.
fn show_part(
    rt: &HostRuntime,
    grammar: &Grammar,
    part: usize,
    from: usize,
    to: usize,
) -> io::Result<()>
    requires { IsFlat grammar.now }
{
    show_notes(rt, part)?;
    for way in from..to {
        if let Some(symbols) = symbols_of(grammar, way) {
            show_way(rt, part, symbols)?;
        }
    }
    Ok(())
}

fn main(rt: HostRuntime) -> io::Result<()> {
    let grammar = grammar_of_texts();
    let mut from = 0;
    for (part, end) in grammar.parts.iter().enumerate() {
        let to = usize::from(*end);
        show_part(&rt, &grammar, part, from, to)?;
        from = to;
    }
    Ok(())
}
