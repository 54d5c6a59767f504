//! One split of a sequent, and the sequents where nothing is left to be split.

ghost use Rattle.std.specs.Prelude.{◌≡◌, ◌↔◌, ◌<◌, ◌≤◌, [], ◌∷◌, ◌++◌, IfErr, IfOk, IfSome, MatchOption, None, OnOk, Some, length, map, reverse, vec_len};
ghost use Rattle.std.specs.List.{AllByRecursion};
ghost use Rattle.math_terms.specs.Kinds.{sort_of_desc};
ghost use Rattle.vc_sequents.specs.Splitting.{IsValidSequent, in_place, sorts_of, split_at, split_goal, split_hypothesis, split_of, with_case, with_goal_case};
ghost use Rattle.vc_sequents.specs.Laws.{AreLeaves, IsSplitRefusal};
ghost use Rattle.vc_sequents.specs.working.Leaves.{IsStep, IsStepRefusal};

use crate::cases::{goal_cases, hypothesis_cases};
use crate::laws::splits_keep_validity;
use crate::sequent::{Sequent, SplitError, copy_vars};
use math_terms::{Desc, Formula, Name, NoMemory, Sort, copy_terms, with};
use sqlite_items::Items;
use std::alloc::{AllocError, Global};

/// The most leaves that a sequent has here.
const MOST_LEAVES: usize = 64;

/// One split: of the lowest hypothesis that gives something, and last of the goal. It is none where nothing is to be split.
pub fn split(alloc: Global, s: &Sequent) -> Result<Option<Vec<Sequent>>, NoMemory>
    ensures exact { IfOk result (λ o. MatchOption o (split_of s.now ≡ None) (λ ss. split_of s.now ≡ Some ss.items)) }
    ensures valid { IfOk result (λ o. IfSome o (λ ss. IsValidSequent s.now ↔ AllByRecursion IsValidSequent ss.items)) }
{
    splits_keep_validity();
    first_split(alloc, s)
}

fn first_split(alloc: Global, s: &Sequent) -> Result<Option<Vec<Sequent>>, NoMemory>
    ensures { IfOk result (λ o. MatchOption o (split_of s.now ≡ None) (λ ss. split_of s.now ≡ Some ss.items)) }
{
    let sorts = sorts_of(alloc, s.vars.as_slice())?;
    for k in 0..s.hyps.len() {
        if let Some(ss) = split_hypothesis(alloc, s, sorts.as_slice(), k)? {
            return Ok(Some(ss));
        }
    }
    split_goal(alloc, s, sorts.as_slice())
}

/// The sequents that one formula gives: the hypothesis of this number, from 1, or with 0 the goal. It is none where that gives
/// nothing, or is not there. The sorts are those of the sequent's variables.
pub fn split_formula(
    alloc: Global,
    s: &Sequent,
    sorts: &[Sort],
    k: usize,
) -> Result<Option<Vec<Sequent>>, NoMemory>
    requires { sorts.now ≡ sorts_of s.now }
    ensures { IfOk result (λ o. MatchOption o (split_at k s.now ≡ None) (λ ss. split_at k s.now ≡ Some ss.items)) }
{
    if k == 0 {
        return split_goal(alloc, s, sorts);
    }
    if k > s.hyps.len() {
        return Ok(None);
    }
    split_hypothesis(alloc, s, sorts, k - 1)
}

/// The sequents that come of the sequent where nothing is left to be split, in their order.
pub fn leaves(alloc: Global, s: &Sequent) -> Result<Vec<Sequent>, SplitError>
    ensures exact { IfOk result (λ ls. AreLeaves s.now ls.items) }
    ensures few { IfOk result (λ ls. vec_len ls ≤ 64) }
    ensures refused { IfErr result (IsSplitRefusal s.now) }
{
    splits_keep_validity();
    let mut todo = Vec::new(alloc);
    let first = s.copy(alloc)?;
    todo.push(first).map_err(AllocError::from)?;
    let mut done = Vec::new(alloc);
    while let Some(next) = todo.pop() {
        step(alloc, next, &mut todo, &mut done)?;
    }
    Ok(done)
}

/// Splits a sequent, so that its parts are left to be done, or adds it to the leaves.
fn step(
    alloc: Global,
    next: Sequent,
    todo: &mut Vec<Sequent>,
    done: &mut Vec<Sequent>,
) -> Result<(), SplitError>
    ensures ok { OnOk result (IsStep next todo.old.items done.old.items todo.new.items done.new.items) }
    ensures refused { IfErr result (IsStepRefusal next done.old.items) }
{
    let (parts, next) = with(first_split(alloc, &next), next)?;
    match parts {
        Some(parts) => {
            drop(next);
            put_back(todo, parts)?;
            Ok(())
        }
        None => add_leaf(done, next),
    }
}

/// Adds a sequent to the leaves.
fn add_leaf<T: Drop>(done: &mut Vec<T>, leaf: T) -> Result<(), SplitError>
    ensures ok { OnOk result (done.new.items ≡ done.old.items ++ leaf ∷ []) }
    ensures few { OnOk result (length done.new.items ≤ 64) }
    ensures refused { IfErr result (λ e. e ≡ SplitError.TooManyCases → 64 ≤ length done.old.items) }
{
    if done.len() >= MOST_LEAVES {
        return Err(SplitError::TooManyCases);
    }
    done.push(leaf).map_err(AllocError::from)?;
    Ok(())
}

/// Puts sequents on what is left to be done, the first on top.
fn put_back(todo: &mut Vec<Sequent>, parts: Vec<Sequent>) -> Result<(), NoMemory>
    ensures { OnOk result (reverse todo.new.items ≡ parts.items ++ reverse todo.old.items) }
{
    let mut left = parts;
    while let Some(last) = left.pop() {
        todo.push(last).map_err(AllocError::from)?;
    }
    Ok(())
}

/// The sequents that a hypothesis gives.
fn split_hypothesis(
    alloc: Global,
    s: &Sequent,
    sorts: &[Sort],
    k: usize,
) -> Result<Option<Vec<Sequent>>, NoMemory>
    requires sorts_of_vars { sorts.now ≡ sorts_of s.now }
    requires within { k < length s.now.hyps }
    ensures { IfOk result (λ o. MatchOption o (split_hypothesis s.now k ≡ None) (λ ss. split_hypothesis s.now k ≡ Some ss.items)) }
{
    let hyps = s.hyps.as_slice();
    match hypothesis_cases(alloc, sorts, &hyps[k])? {
        Some(cases) => Ok(Some(with_cases(alloc, s, k, cases)?)),
        None => Ok(None),
    }
}

/// The sequents that the goal gives.
fn split_goal(alloc: Global, s: &Sequent, sorts: &[Sort]) -> Result<Option<Vec<Sequent>>, NoMemory>
    requires { sorts.now ≡ sorts_of s.now }
    ensures { IfOk result (λ o. MatchOption o (split_goal s.now ≡ None) (λ ss. split_goal s.now ≡ Some ss.items)) }
{
    match goal_cases(alloc, sorts, &s.goal)? {
        Some(cases) => Ok(Some(with_goal_cases(alloc, s, cases)?)),
        None => Ok(None),
    }
}

/// The sorts of the variables.
pub(crate) fn sorts_of(alloc: Global, vars: &[(Name, Desc)]) -> Result<Items<Sort>, NoMemory>
    ensures { IfOk result (λ ss. ss ≡ map (λ v. sort_of_desc v.1) vars.now) }
{
    let mut out = Items::new(alloc);
    for v in vars {
        out.push(v.1.sort(alloc)?)?;
    }
    Ok(out)
}

/// The new sequents, where a hypothesis gives these cases.
fn with_cases(
    alloc: Global,
    s: &Sequent,
    k: usize,
    cases: Vec<Items<Formula>>,
) -> Result<Vec<Sequent>, NoMemory>
    requires { k < length s.now.hyps }
    ensures { IfOk result (λ ss. ss.items ≡ map (with_case s.now k) cases.items) }
{
    let mut out = Vec::new(alloc);
    for new in cases {
        let next = with_case(alloc, s, k, new)?;
        out.push(next).map_err(AllocError::from)?;
    }
    Ok(out)
}

/// The sequent with formulas in the place of a hypothesis.
fn with_case(alloc: Global, s: &Sequent, k: usize, new: Items<Formula>) -> Result<Sequent, NoMemory>
    requires { k < length s.now.hyps }
    ensures { IfOk result (λ t. t ≡ with_case s.now k new) }
{
    Ok(Sequent {
        vars: copy_vars(alloc, s.vars.as_slice())?,
        params: s.params,
        hyps: in_place(alloc, s.hyps.as_slice(), k, new)?,
        goal: s.goal.copy(alloc)?,
    })
}

/// The hypotheses with formulas in the place of one.
fn in_place(
    alloc: Global,
    hyps: &[Formula],
    k: usize,
    new: Items<Formula>,
) -> Result<Items<Formula>, NoMemory>
    requires { k < length hyps.now }
    ensures { IfOk result (λ fs. fs ≡ in_place k new hyps.now) }
{
    let mut out = copy_terms(alloc, &hyps[..k])?;
    out.append(new)?;
    out.append(copy_terms(alloc, &hyps[k + 1..])?)?;
    Ok(out)
}

/// The new sequents, where the goal gives these cases.
fn with_goal_cases(
    alloc: Global,
    s: &Sequent,
    cases: Vec<(Items<Formula>, Formula)>,
) -> Result<Vec<Sequent>, NoMemory>
    ensures { IfOk result (λ ss. ss.items ≡ map (with_goal_case s.now) cases.items) }
{
    let mut out = Vec::new(alloc);
    for new in cases {
        let next = with_goal_case(alloc, s, new)?;
        out.push(next).map_err(AllocError::from)?;
    }
    Ok(out)
}

/// The sequent with more hypotheses behind its own, and another goal.
fn with_goal_case(
    alloc: Global,
    s: &Sequent,
    new: (Items<Formula>, Formula),
) -> Result<Sequent, NoMemory>
    ensures { IfOk result (λ t. t ≡ with_goal_case s.now new) }
{
    let (more, goal) = new;
    let (hyps, goal) = with(with_more(alloc, s.hyps.as_slice(), more), goal)?;
    let (vars, goal) = with(copy_vars(alloc, s.vars.as_slice()), goal)?;
    Ok(Sequent {
        vars,
        params: s.params,
        hyps,
        goal,
    })
}

/// The hypotheses with more of them behind.
fn with_more(
    alloc: Global,
    hyps: &[Formula],
    more: Items<Formula>,
) -> Result<Items<Formula>, NoMemory>
    ensures { IfOk result (λ fs. fs ≡ hyps.now ++ more) }
{
    let mut out = copy_terms(alloc, hyps)?;
    out.append(more)?;
    Ok(out)
}
