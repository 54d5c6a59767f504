//! The search: sequents that stand are closed where they can be, and else split.

ghost use Rattle.std.specs.Prelude.{◌≡◌, ◌<◌, ◌≤◌, ◌^◌, ◌+◌, ◌++◌, [], ◌∷◌, false, true, IfErr, IfOk, IfSome, MatchOption, None, OnOk, Some, length, reverse, vec_len};
ghost use Rattle.std.specs.List.{list_all};
ghost use Rattle.vc_sequents.specs.Splitting.{sorts_of};
ghost use Rattle.cert_check.specs.Legality.{IsLegal, is_small as is_small_formula};
ghost use Rattle.vc_prover.specs.Refusal.{IsProveRefusal};
ghost use Rattle.vc_prover.specs.Search.{IsFound, is_small_sequent, most_ends};
ghost use Rattle.vc_prover.specs.Search as spec;
ghost use Rattle.vc_prover.specs.working.Answers.{IsNotSplit, IsStep, IsStepRefusal, Opens};

use crate::closing::closing;
use crate::laws::found_is_legal;
use cert_form::{Cert, Step};
use math_terms::{Formula, NoMemory, Sort};
use sqlite_items::Items;
use std::alloc::{AllocError, Global};
use vc_sequents::{Sequent, split_formula, splits_end};

/// The most branch ends.
const MOST_ENDS: u32 = 64;

/// The most nodes of a formula.
const MOST_NODES: u32 = 10_000;

/// As many hypotheses are taken for want of memory.
const MOST_HYPOTHESES: usize = 1 << 30;

/// Why there is no certificate: the search leaves a sequent open, within its limits.
#[derive(Clone, Copy, Debug, PartialEq, Eq)]
pub enum ProveError {
    Open,
    NoMemory,
}

impl From<NoMemory> for ProveError {
    ghost use Rattle.std.specs.Prelude.{◌≡◌};
    ghost use Rattle.vc_prover.specs.declared.search.ProveError.TheVariants.{NoMemory as no_memory};

    ghost from_gives = { λ _ e. e ≡ no_memory };

    fn from(_error: NoMemory) -> ProveError {
        ProveError::NoMemory
    }
}

impl From<AllocError> for ProveError {
    ghost use Rattle.std.specs.Prelude.{◌≡◌};
    ghost use Rattle.vc_prover.specs.declared.search.ProveError.TheVariants.{NoMemory as no_memory};

    ghost from_gives = { λ _ e. e ≡ no_memory };

    fn from(_error: AllocError) -> ProveError {
        ProveError::NoMemory
    }
}

/// The steps so far, and how many of them are branch ends.
#[derive(Drop)]
struct Done {
    steps: Items<Step>,
    ends: u32,
}

/// The certificate that the search finds. Want of memory is also the answer where a sequent comes to have 2^30 hypotheses.
pub fn prove(alloc: Global, s: &Sequent) -> Result<Cert, ProveError>
    ensures found { IfOk result (λ c. IsFound s.now c.steps) }
    ensures legal { IfOk result (λ c. IsLegal c.steps s.now) }
    ensures refused { IfErr result (IsProveRefusal s.now) }
{
    splits_end();
    found_is_legal();
    if !is_small_sequent(s) {
        return Err(ProveError::Open);
    }
    let mut todo = Vec::new(alloc);
    let first = s.copy(alloc)?;
    todo.push(first).map_err(AllocError::from)?;
    let mut done = Done {
        steps: Items::new(alloc),
        ends: 0,
    };
    while let Some(next) = todo.pop() {
        let stepped = step(alloc, &next, &mut todo, &mut done);
        drop(next);
        stepped?;
    }
    Ok(Cert { steps: done.steps })
}

/// Closes a sequent, or splits it, so that its parts are left to be done.
fn step(
    alloc: Global,
    next: &Sequent,
    todo: &mut Vec<Sequent>,
    done: &mut Done,
) -> Result<(), ProveError>
    requires { is_small_sequent next.now ≡ true }
    ensures ok { OnOk result (IsStep next.now todo.old.items done.old todo.new.items done.new) }
    ensures refused { IfErr result (IsStepRefusal next.now done.old) }
{
    if next.hyps.len() >= MOST_HYPOTHESES {
        return Err(ProveError::NoMemory);
    }
    let sorts = next.sorts(alloc)?;
    step_over(alloc, next, sorts.as_slice(), todo, done)
}

/// The same, with the sorts of the variables.
fn step_over(
    alloc: Global,
    next: &Sequent,
    sorts: &[Sort],
    todo: &mut Vec<Sequent>,
    done: &mut Done,
) -> Result<(), ProveError>
    requires few { length next.now.hyps < 2 ^ 31 }
    requires sorts_of_vars { sorts.now ≡ sorts_of next.now }
    requires small { is_small_sequent next.now ≡ true }
    ensures ok { OnOk result (IsStep next.now todo.old.items done.old todo.new.items done.new) }
    ensures refused { IfErr result (IsStepRefusal next.now done.old) }
{
    match closing(alloc, next, sorts)? {
        Some(step) => close(done, step),
        None => open(alloc, next, sorts, todo, done),
    }
}

/// Adds a step that closes a sequent.
fn close(done: &mut Done, step: Step) -> Result<(), ProveError>
    ensures few { OnOk result (done.old.ends < most_ends) }
    ensures added { OnOk result (done.new.steps ≡ done.old.steps ++ step ∷ []) }
    ensures counted { OnOk result (done.new.ends ≡ done.old.ends + 1) }
    ensures refused { IfErr result (λ e. e ≡ ProveError.Open → most_ends ≤ done.old.ends) }
{
    if done.ends >= MOST_ENDS {
        return Err(ProveError::Open);
    }
    done.steps.push(step)?;
    done.ends += 1;
    Ok(())
}

/// Splits a sequent, and its parts stand on top of what is left to be done.
fn open(
    alloc: Global,
    next: &Sequent,
    sorts: &[Sort],
    todo: &mut Vec<Sequent>,
    done: &mut Done,
) -> Result<(), ProveError>
    requires few { length next.now.hyps < 2 ^ 31 }
    requires sorts_of_vars { sorts.now ≡ sorts_of next.now }
    requires small { is_small_sequent next.now ≡ true }
    ensures ok { OnOk result (Opens next.now todo.old.items done.old todo.new.items done.new) }
    ensures refused { IfErr result (λ e. e ≡ ProveError.Open → IsNotSplit next.now) }
{
    match splitting(alloc, next, sorts)? {
        Some((k, parts)) => put(k, parts, todo, done),
        None => Err(ProveError::Open),
    }
}

/// The formula of the sequent that gives something, with what it gives: the lowest hypothesis, and last the goal.
fn splitting(
    alloc: Global,
    s: &Sequent,
    sorts: &[Sort],
) -> Result<Option<(u32, Vec<Sequent>)>, NoMemory>
    requires few { length s.now.hyps < 2 ^ 31 }
    requires sorts_of_vars { sorts.now ≡ sorts_of s.now }
    ensures exact { IfOk result (λ o. MatchOption o (spec.splitting s.now ≡ None) (λ p. spec.splitting s.now ≡ Some (p.0, p.1.items))) }
    ensures few { IfOk result (λ o. IfSome o (λ p. length p.1.items ≤ 2)) }
{
    splits_end();
    for k in 0..s.hyps.len() {
        if let Some(parts) = split_formula(alloc, s, sorts, k + 1)? {
            return Ok(Some((k as u32 + 1, parts)));
        }
    }
    match split_formula(alloc, s, sorts, 0)? {
        Some(parts) => Ok(Some((0, parts))),
        None => Ok(None),
    }
}

/// Adds the step that splits formula k into these parts, where they are small, and puts them back to be done.
fn put(
    k: u32,
    parts: Vec<Sequent>,
    todo: &mut Vec<Sequent>,
    done: &mut Done,
) -> Result<(), ProveError>
    requires { length parts.items ≤ 2 }
    ensures small { OnOk result (list_all is_small_sequent parts.items ≡ true) }
    ensures put { OnOk result (reverse todo.new.items ≡ parts.items ++ reverse todo.old.items) }
    ensures added { OnOk result (done.new.steps ≡ done.old.steps ++ Step.Split k (length parts.items) ∷ []) }
    ensures ends_stay { OnOk result (done.new.ends ≡ done.old.ends) }
    ensures refused { IfErr result (λ e. e ≡ ProveError.Open → list_all is_small_sequent parts.items ≡ false) }
{
    if !are_small_sequents(&parts) {
        return Err(ProveError::Open);
    }
    done.steps.push(Step::Split(k, parts.len() as u32))?;
    put_back(todo, parts)?;
    Ok(())
}

/// Puts sequents on what is left to be done, the first on top.
fn put_back(todo: &mut Vec<Sequent>, parts: Vec<Sequent>) -> Result<(), NoMemory>
    ensures { OnOk result (reverse todo.new.items ≡ parts.items ++ reverse todo.old.items) }
{
    let mut left = parts;
    while let Some(last) = left.pop() {
        todo.push(last).map_err(AllocError::from)?;
    }
    Ok(())
}

fn are_small_sequents(ss: &[Sequent]) -> bool
    ensures { result ≡ list_all is_small_sequent ss.now }
{
    ss.iter().all(|s| is_small_sequent(s))
}

/// Whether all formulas of the sequent are small.
fn is_small_sequent(s: &Sequent) -> bool
    ensures { result ≡ is_small_sequent s.now }
{
    are_small(s.hyps.as_slice()) && is_small(&s.goal)
}

fn are_small(formulas: &[Formula]) -> bool
    ensures { result ≡ list_all is_small_formula formulas.now }
{
    formulas.iter().all(|f| is_small(f))
}

/// Whether the formula has no more nodes than it may.
fn is_small(f: &Formula) -> bool
    ensures { result ≡ is_small_formula f.now }
{
    f.nodes_up_to(MOST_NODES) <= MOST_NODES
}
