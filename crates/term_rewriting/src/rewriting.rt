//! A rule at a position of a formula.

ghost use Rattle.std.specs.Option.{option_copied};
ghost use Rattle.std.specs.Prelude.{◌≡◌, ◌≤◌, true, List, Option, Some, IfErr, IfOk, IfSome};
ghost use Rattle.math_terms.specs.declared.term.Term.{Term};
ghost use Rattle.math_terms.specs.Terms.{IsSizeRefusal, nodes};
ghost use Rattle.term_cells.specs.KindShown.{sorts_of_vars};
ghost use Rattle.term_cells.specs.Placed.{AllStand};
ghost use Rattle.term_cells.specs.Standing.{stands};
ghost use Rattle.str_theory.specs.Positions.{given_at};
ghost use Rattle.str_theory.specs.Rules.{rule as rule_gives};
ghost use Rattle.cell_rules.specs.Answering.{is_answered};
ghost use Rattle.cell_rules.specs.Giving.{Stands, places};
ghost use Rattle.cell_rules.specs.Using.{FactStands};
ghost use Rattle.term_rewriting.specs.Rewriting as spec;

use crate::taking::{take, take_all};
use cell_rules::{Conditions, Rewritten, Rule};
use math_terms::{Desc, Formula, Items, Name, NoMemory, Position, Term, TermError, both};
use std::alloc::Global;
use str_theory::rules_keep_truth;
use term_cells::{Cells, standing_lasts};

/// The most nodes that a rewritten formula may have.
const MOST_NODES: u32 = 10_000;

/// The most nodes of a formula that is rewritten, and of a hypothesis that is used: more are not counted by cells.
const MOST_LOADED: u32 = 1 << 28;

/// The rule that uses a hypothesis.
const USING: u32 = 22;

/// The formula with what a rule, counted from 1, gives at a position of it, and the side conditions; none where the rule gives nothing there.
/// Rule 22 uses the hypothesis of the number `with`, counted from 1. `TooLarge` says that the new formula would have over 10,000 nodes.
pub fn apply(
    alloc: Global,
    vars: &[(Name, Desc)],
    rule: u32,
    hyps: &[Formula],
    with: u32,
    position: &Position,
    f: &Formula,
) -> Result<Option<(Formula, Items<Formula>)>, TermError>
    ensures exact { is_answered rule ≡ true → IfOk result (λ o. o ≡ spec.rewritten vars.now rule hyps.now with position.now f.now) }
    ensures small { is_answered rule ≡ true → IfOk result (λ o. IfSome o (λ new. nodes new.0 ≤ 10000)) }
    ensures refused { is_answered rule ≡ true → IfErr result (λ e. spec.IsRewritingRefusal e (spec.rewritten vars.now rule hyps.now with position.now f.now)) }
    ensures truth { is_answered rule ≡ true → IfOk result (λ o. IfSome o (λ new. spec.KeepsTruth vars.now (spec.used rule with hyps.now) f.now new)) }
{
    rules_keep_truth();
    let fact = used(rule, with, hyps);
    let Some(room) = room_for(fact, f) else {
        return Err(TermError::NoMemory);
    };
    let mut cells = Cells::new(alloc, room)?;
    let Some(placed) = load(&mut cells, fact, f) else {
        return Err(TermError::NoMemory);
    };
    let rule = Rule {
        number: rule,
        fact: placed.fact,
    };
    rewrite(
        alloc,
        &mut cells,
        vars,
        rule,
        placed.formula,
        position.places().as_slice(),
    )
}

/// The hypothesis that a rule uses.
fn used(rule: u32, with: u32, hyps: &[Formula]) -> Option<&Formula>
    ensures { option_copied result ≡ spec.used rule with hyps.now }
{
    if rule == USING && with > 0 {
        hyps.get(with as usize - 1)
    } else {
        None
    }
}

/// How many cells are needed: two a node and one for each formula, and again two a node of the formula, and 45, for what is made.
fn room_for(fact: Option<&Formula>, f: &Formula) -> Option<usize> {
    let formula = f.nodes_up_to(MOST_LOADED);
    let fact = match fact {
        Some(fact) => fact.nodes_up_to(MOST_LOADED),
        None => 0,
    };
    if formula > MOST_LOADED || fact > MOST_LOADED {
        return None;
    }
    Some(4 * formula as usize + 2 * fact as usize + 47)
}

/// Where a formula and the fact that is used stand.
#[derive(Clone, Copy, Debug)]
struct Placed {
    fact: Option<u32>,
    formula: u32,
}

/// The fact and the formula in cells; none where there is no room.
fn load(cells: &mut Cells, fact: Option<&Formula>, f: &Formula) -> Option<Placed>
    ensures fact { IfSome result (λ p. FactStands cells.new.0 (option_copied fact.entry) p.fact) }
    ensures formula { IfSome result (λ p. stands cells.new.0 f.now p.formula ≡ true) }
{
    standing_lasts();
    let Some(fact) = fact else {
        return Some(Placed {
            fact: None,
            formula: cells.load(f)?,
        });
    };
    let place = cells.load(fact)?;
    Some(Placed {
        fact: Some(place),
        formula: cells.load(f)?,
    })
}

/// What a rule gives at a position of the formula at a place.
fn rewrite(
    alloc: Global,
    cells: &mut Cells,
    vars: &[(Name, Desc)],
    rule: Rule,
    p: u32,
    position: &[u32],
) -> Result<Option<(Formula, Items<Formula>)>, TermError>
    ensures exact { (f : Option Term) (t : Term) → FactStands cells.old.0 f rule.fact → stands cells.old.0 t p ≡ true → is_answered rule.number ≡ true → IfOk result (λ o. o ≡ given_at position.now (rule_gives (sorts_of_vars vars.now) f rule.number) t) }
    ensures small { (f : Option Term) (t : Term) → FactStands cells.old.0 f rule.fact → stands cells.old.0 t p ≡ true → is_answered rule.number ≡ true → IfOk result (λ o. IfSome o (λ new. nodes new.0 ≤ 10000)) }
    ensures refused { (f : Option Term) (t : Term) → FactStands cells.old.0 f rule.fact → stands cells.old.0 t p ≡ true → is_answered rule.number ≡ true → IfErr result (λ e. spec.IsRewritingRefusal e (given_at position.now (rule_gives (sorts_of_vars vars.now) f rule.number) t)) }
{
    match rule.rewrite(cells, vars, p, position) {
        Ok(Some(rewritten)) => take_rewritten(alloc, cells, rewritten),
        Ok(None) => Ok(None),
        Err(_) => Err(TermError::NoMemory),
    }
}

/// A new formula and its side conditions.
fn take_rewritten(
    alloc: Global,
    cells: &Cells,
    rewritten: Rewritten,
) -> Result<Option<(Formula, Items<Formula>)>, TermError>
    ensures exact { (x : Term × List Term) → Stands cells.now.0 x rewritten → IfOk result (λ o. o ≡ Some x) }
    ensures small { (x : Term × List Term) → Stands cells.now.0 x rewritten → IfOk result (λ o. nodes x.0 ≤ 10000) }
    ensures refused { (x : Term × List Term) → Stands cells.now.0 x rewritten → IfErr result (λ e. IsSizeRefusal e (nodes x.0)) }
{
    if cells.nodes_up_to(rewritten.place, MOST_NODES) > MOST_NODES {
        return Err(TermError::TooLarge);
    }
    match both(
        take(alloc, cells, rewritten.place),
        take_conditions(alloc, cells, rewritten.conditions),
    ) {
        Ok(new) => Ok(Some(new)),
        Err(_) => Err(TermError::NoMemory),
    }
}

/// The side conditions.
fn take_conditions(
    alloc: Global,
    cells: &Cells,
    conditions: Conditions,
) -> Result<Items<Formula>, NoMemory>
    ensures { (ts : List Term) → AllStand cells.now.0 ts (places conditions) → IfOk result (λ r. r ≡ ts) }
{
    match conditions {
        Conditions::None => take_all(alloc, cells, &[]),
        Conditions::One(p) => take_all(alloc, cells, &[p]),
        Conditions::Two(p, q) => take_all(alloc, cells, &[p, q]),
        Conditions::Three(p, q, r) => take_all(alloc, cells, &[p, q, r]),
    }
}
