//! The words that make steps of certificates: `by:same`, `by:hyp:K`, `by:absurd:K`, `by:clash:K:L`, `by:split:K:N`, `by:subst:K`,
//! and `by:linear:h1,r2,a3,g:p.i.q.j,..`.

use crate::board::Board;
use crate::lists::put_read;
use crate::trouble::Trouble;
use crate::words::{count, name_and_rest, parsed, two_counts, two_parts};
use cert_form::Step;
use math_terms::{Line, RowName};
use sqlite_items::Items;
use std::alloc::Global;

// The number behind a mark.
fn numbered(text: &str, mark: &str) -> Option<u32> {
    match text.strip_prefix(mark) {
        Some(k) => count(k).ok(),
        None => None,
    }
}

fn row_name(text: &str) -> Result<RowName, Trouble> {
    if text == "g" {
        return Ok(RowName::Goal);
    }
    if let Some(k) = numbered(text, "h") {
        return Ok(RowName::Hyp(k));
    }
    if let Some(k) = numbered(text, "r") {
        return Ok(RowName::Second(k));
    }
    match numbered(text, "a") {
        Some(k) => Ok(RowName::Atom(k)),
        None => Err(Trouble::NotUnderstood),
    }
}

fn row_names(alloc: Global, text: &str) -> Result<Items<RowName>, Trouble> {
    let mut names = Items::new(alloc);
    for piece in text.split(',') {
        names.push(row_name(piece)?)?;
    }
    Ok(names)
}

fn halves(text: &str) -> Result<(&str, &str), Trouble> {
    text.split_once('.').ok_or(Trouble::NotUnderstood)
}

// `q.j`
fn product(text: &str) -> Result<(i32, u32), Trouble> {
    let (q, j) = halves(text)?;
    Ok((parsed::<i32>(q)?, count(j)?))
}

// `p.i`, and what stands behind the dot after it.
fn product_and_rest(text: &str) -> Result<(i32, u32, &str), Trouble> {
    let (p, text) = halves(text)?;
    let (i, rest) = halves(text)?;
    Ok((parsed::<i32>(p)?, count(i)?, rest))
}

fn line(text: &str) -> Result<Line, Trouble> {
    let (p, i, rest) = product_and_rest(text)?;
    let (q, j) = product(rest)?;
    Ok(Line { p, i, q, j })
}

fn lines(alloc: Global, text: &str) -> Result<Items<Line>, Trouble> {
    let mut lines = Items::new(alloc);
    for piece in text.split(',') {
        if !piece.is_empty() {
            lines.push(line(piece)?)?;
        }
    }
    Ok(lines)
}

fn linear(alloc: Global, text: &str) -> Result<Step, Trouble> {
    let (rows, text) = two_parts(text)?;
    let rows = row_names(alloc, rows)?;
    let lines = lines(alloc, text)?;
    Ok(Step::Linear { rows, lines })
}

fn clash(rest: &str) -> Result<Step, Trouble> {
    let (k, l) = two_counts(rest)?;
    Ok(Step::Clash(k, l))
}

fn split(rest: &str) -> Result<Step, Trouble> {
    let (k, n) = two_counts(rest)?;
    Ok(Step::Split(k, n))
}

// A step that names one hypothesis.
fn step_with(name: &str, k: u32) -> Result<Step, Trouble> {
    match name {
        "hyp" => Ok(Step::Hyp(k)),
        "absurd" => Ok(Step::Absurd(k)),
        "subst" => Ok(Step::Subst(k)),
        _ => Err(Trouble::NotUnderstood),
    }
}

fn step(alloc: Global, text: &str) -> Result<Step, Trouble> {
    let (name, rest) = name_and_rest(text);
    match name {
        "same" => Ok(Step::Same),
        "clash" => clash(rest),
        "split" => split(rest),
        "linear" => linear(alloc, rest),
        _ => step_with(name, count(rest)?),
    }
}

impl Board {
    /// Whether the word makes a step, which is done.
    pub fn makes_step(&mut self, name: &str, rest: &str) -> Result<bool, Trouble> {
        if name != "by" {
            return Ok(false);
        }
        put_read(&mut self.steps, step(self.alloc, rest))?;
        Ok(true)
    }
}
