//! The reader: a stack of what is still to come, from which each token or rule takes the top.

ghost use Rattle.std.specs.Prelude.{get_or, ◌+◌, ◌-◌, take, drop, ◌≡◌, ◌++◌, ◌∷◌, [], ◌<◌, ◌≤◌, ℕ, List, Option, Some, None, IfOk, MatchBool, MatchOption, OnOk, true, length};
ghost use Rattle.ll_grammar.specs.Predictive.{Certificate, cost, is_in};
ghost use Rattle.ll_grammar.specs.Texts.{Read, Refused};
ghost use Rattle.ll_grammar.specs.Reader.{IsFlat, IsLl1, cut_start, cuts, ways_of, IsChosen, MatchAnswer, NoWay, Never, Settles, Somewhere, Stands, rules_of, table_of};
ghost use Rattle.ll_grammar.specs.Grammar.{at, row};

use crate::form::{Grammar, Move, Symbol};
use crate::stack::Stack;
use std::alloc::{AllocError, Global};

/// What reading words gives.
#[derive(Drop)]
pub enum Answer {
    /// The one derivation of the words.
    Read(Vec<Move>),
    /// The first word that no text with the same words before it has, or the number of words; and the moves before it.
    Refused(usize, Vec<Move>),
}

// What comes next, once no part is on top.
#[derive(Clone, Copy)]
pub enum Settled {
    Terminal(u8),
    Nothing,
    Stuck,
}

fn is_lookahead(when: u128, class: u8) -> bool
    ensures { result ≡ is_in class when }
{
    class < 128 && (when >> class) & 1 == 1
}

// The first of these sets that has the class.
fn first_way(lookaheads: &[u128], class: u8) -> Option<usize>
    ensures { MatchOption result ((k : ℕ) (w : ℕ) → at lookaheads.now k ≡ Some w → is_in class w ≡ true → ⊥) (λ k. (w : ℕ) × ((at lookaheads.now k ≡ Some w) × (is_in class w ≡ true))) }
{
    for (place, when) in lookaheads.iter().enumerate() {
        if is_lookahead(*when, class) {
            return Some(place);
        }
    }
    None
}

fn part_of<T>(items: &[T], from: usize, to: usize) -> &[T]
    requires { (from ≤ to) × (to ≤ length items.now) }
    ensures { result.now ≡ take (to - from) (drop from items.now) }
{
    &items[from..to]
}

// Where a piece begins, of those that end here.
fn start_of(ends: &[u16], piece: usize) -> usize
    requires { piece < length ends.now }
    ensures { result ≡ cut_start 0 ends.now piece }
{
    if piece == 0 {
        0
    } else {
        ends[piece - 1] as usize
    }
}

// Where a piece ends.
fn end_of(ends: &[u16], piece: usize) -> u16
    requires { piece < length ends.now }
    ensures { result ≡ get_or ends.now piece 0 }
{
    ends[piece]
}

/// The symbols of a way, or none where there are not so many ways. Ways are numbered from 0.
pub fn symbols_of<'a>(grammar: &Grammar<'a>, way: usize) -> Option<&'a [Symbol]>
    requires { IsFlat grammar.now }
    ensures { MatchOption result (length grammar.now.ends.now ≤ way) (λ x. at (ways_of grammar.now) way ≡ Some x.now) }
{
    if way >= grammar.ends.len() {
        return None;
    }
    let from = start_of(grammar.ends, way);
    let to = end_of(grammar.ends, way);
    Some(part_of(grammar.symbols, from, to as usize))
}

// For each way of a part the classes at which it is taken.
fn lookaheads_of<'a>(grammar: &Grammar<'a>, part: usize) -> Option<&'a [u128]>
    requires { IsFlat grammar.now }
    ensures { MatchOption result (length grammar.now.parts.now ≤ part) (λ x. (part < length grammar.now.parts.now) × (row (cuts 0 grammar.now.parts.now grammar.now.lookaheads.now) part ≡ x.now) × (cut_start 0 grammar.now.parts.now part + length x.now < 65536)) }
{
    if part >= grammar.parts.len() {
        return None;
    }
    let from = start_of(grammar.parts, part);
    let to = end_of(grammar.parts, part);
    Some(part_of(grammar.lookaheads, from, to as usize))
}

// The way of a part that is taken at this class: its number among those of the part, and its symbols.
fn chosen<'a>(grammar: &Grammar<'a>, part: u8, class: u8) -> Option<(u16, &'a [Symbol])>
    requires { IsFlat grammar.now }
    ensures { MatchOption result (NoWay grammar.now part class) (λ x. IsChosen grammar.now part class x.0 x.1.now) }
{
    match lookaheads_of(grammar, part as usize) {
        Some(lookaheads) => match first_way(lookaheads, class) {
            Some(place) => {
                let from = start_of(grammar.parts, part as usize);
                match symbols_of(grammar, from + place) {
                    Some(right) => Some((place as u16, right)),
                    None => None,
                }
            }
            None => None,
        },
        None => None,
    }
}

fn push_all(stack: &mut Stack<Symbol>, symbols: &[Symbol]) -> Result<(), AllocError>
    ensures { OnOk result (stack.new ≡ symbols.now ++ stack.old) }
{
    for symbol in symbols.iter().rev() {
        stack.push(*symbol)?;
    }
    Ok(())
}

// The part on top, which was taken off, is spelled in the way for the next class.
fn expand(
    grammar: &Grammar,
    stack: &mut Stack<Symbol>,
    moves: &mut Vec<Move>,
    part: u8,
    class: u8,
) -> Result<bool, AllocError>
    ghost certificate: { Certificate }
    requires { IsLl1 grammar.now certificate }
    ensures expanded { IfOk result (λ b. MatchBool b ((done : List ℕ) → Stands grammar.now certificate done moves.old.items (Symbol.Nonterminal part ∷ stack.old) (Some class) → Stands grammar.now certificate done moves.new.items stack.new (Some class)) (NoWay grammar.now part class × (moves.new.items ≡ moves.old.items))) }
    ensures cheaper { IfOk result (λ b. MatchBool b (cost (table_of grammar.now certificate) stack.new < cost (table_of grammar.now certificate) (Symbol.Nonterminal part ∷ stack.old)) (Unit {0})) }
{
    match chosen(grammar, part, class) {
        Some((place, right)) => {
            moves.push(Move::Expand(part, place))?;
            push_all(stack, right)?;
            Ok(true)
        }
        None => Ok(false),
    }
}

// Ways are taken and actions met until a word is on top, which is taken off.
fn settle(
    grammar: &Grammar,
    stack: &mut Stack<Symbol>,
    moves: &mut Vec<Move>,
    class: u8,
) -> Result<Settled, AllocError>
    ghost certificate: { Certificate }
    requires { IsLl1 grammar.now certificate }
    ensures { IfOk result (λ s. (done : List ℕ) → Stands grammar.now certificate done moves.old.items stack.old (Some class) → Settles grammar.now certificate done class moves.new.items stack.new s) }
{
    while let Some(symbol) = stack.pop() {
        match symbol {
            Symbol::Terminal(word) => return Ok(Settled::Terminal(word)),
            Symbol::Action(action) => moves.push(Move::Act(action))?,
            Symbol::Nonterminal(part) => {
                if !expand(grammar, stack, moves, part, class)? {
                    return Ok(Settled::Stuck);
                }
            }
        }
    }
    Ok(Settled::Nothing)
}

// Whether some text goes on with this class, which is taken then.
fn take(
    grammar: &Grammar,
    stack: &mut Stack<Symbol>,
    moves: &mut Vec<Move>,
    class: u8,
) -> Result<bool, AllocError>
    ghost certificate: { Certificate }
    requires { IsLl1 grammar.now certificate }
    ensures { IfOk result (λ b. (done : List ℕ) → Stands grammar.now certificate done moves.old.items stack.old None → MatchBool b (Stands grammar.now certificate (done ++ class ∷ []) moves.new.items stack.new None) (Never grammar.now done class × Somewhere grammar.now certificate done moves.new.items class)) }
{
    match settle(grammar, stack, moves, class)? {
        Settled::Terminal(word) => {
            if word == class {
                moves.push(Move::Shift)?;
                Ok(true)
            } else {
                Ok(false)
            }
        }
        Settled::Nothing => Ok(false),
        Settled::Stuck => Ok(false),
    }
}

/// The derivation of the words, or where they leave the texts of the grammar.
pub fn derive(alloc: Global, grammar: &Grammar, classes: &[u8]) -> Result<Answer, AllocError>
    ghost certificate: { Certificate }
    requires { IsLl1 grammar.now certificate }
    ensures read { IfOk result (λ a. MatchAnswer a (λ moves. Read (rules_of grammar.now) grammar.now.start classes.now moves) (λ place before. Unit {0})) }
    ensures refused { IfOk result (λ a. MatchAnswer a (λ moves. Unit {0}) (λ place before. Refused (rules_of grammar.now) grammar.now.start classes.now place before)) }
{
    let mut stack = Stack::new(alloc);
    let mut moves = Vec::new(alloc);
    stack.push(Symbol::Nonterminal(grammar.start))?;
    for (place, class) in classes.iter().enumerate() {
        if !take(grammar, &mut stack, &mut moves, *class)? {
            return Ok(Answer::Refused(place, moves));
        }
    }
    match settle(grammar, &mut stack, &mut moves, grammar.end_mark)? {
        Settled::Nothing => Ok(Answer::Read(moves)),
        Settled::Terminal(_) => Ok(Answer::Refused(classes.len(), moves)),
        Settled::Stuck => Ok(Answer::Refused(classes.len(), moves)),
    }
}
