//! What the formulas of a sequent give where it is split.

ghost use Rattle.std.specs.Prelude.{◌≡◌, [], ◌∷◌, IfOk, None, Some};
ghost use Rattle.std.specs.Option.{option_map};
ghost use Rattle.math_terms.specs.declared.term.Term.TheOpen.{Term-F};
ghost use Rattle.math_terms.specs.declared.term.Term.TheViews.{out-Term};
ghost use Rattle.vc_sequents.specs.Splitting.{form_cases, form_goals, goal_cases, hypothesis_cases, negation_cases, not as not_of, of_numbers, of_truths, one_case, one_goal, two_cases, two_goals};

use crate::formulas::{first_alone, implication, less, less_eq, negation, neither, not_both};
use math_terms::{Formula, NoMemory, Sort, Term, both, kind_of};
use sqlite_items::Items;
use std::alloc::{AllocError, Global};

/// For each new sequent the formulas that stand in the place of a hypothesis, and none where it gives nothing.
type Cases = Option<Vec<Items<Formula>>>;

/// For each new sequent the hypotheses that come last, and its goal, and none where the goal gives nothing.
type GoalCases = Option<Vec<(Items<Formula>, Formula)>>;

/// What a hypothesis gives.
pub(crate) fn hypothesis_cases(
    alloc: Global,
    sorts: &[Sort],
    f: &Formula,
) -> Result<Cases, NoMemory>
    ensures { IfOk result (λ o. option_map (λ v. v.items) o ≡ hypothesis_cases sorts.now f.now) }
{
    match f {
        Term::Truth(b) => {
            if *b {
                one_case(alloc, Items::new(alloc))
            } else {
                Ok(None)
            }
        }
        Term::And(a, b) => one_case(alloc, two_formulas(alloc, a.get(), b.get())?),
        Term::Or(a, b) => {
            let (first, second) = both(a.get().copy(alloc), b.get().copy(alloc))?;
            either(alloc, first, second)
        }
        Term::Implies(a, b) => {
            let (f, g) = both(negation(alloc, a.get()), b.get().copy(alloc))?;
            either(alloc, f, g)
        }
        Term::Not(a) => negation_cases(alloc, sorts, a.get()),
        Term::Eq(a, b) => equal_truths(alloc, sorts, a.get(), b.get()),
        _ => Ok(None),
    }
}

/// What the negation of a formula gives.
fn negation_cases(alloc: Global, sorts: &[Sort], f: &Formula) -> Result<Cases, NoMemory>
    ensures { IfOk result (λ o. option_map (λ v. v.items) o ≡ negation_cases sorts.now (out-Term f.now)) }
{
    match f {
        Term::Truth(b) => one_formula(alloc, Term::Truth(!*b)),
        Term::Not(a) => one_formula(alloc, a.get().copy(alloc)?),
        Term::And(a, b) => one_formula(alloc, not_both(alloc, a.get(), b.get())?),
        Term::Or(a, b) => one_formula(alloc, neither(alloc, a.get(), b.get())?),
        Term::Implies(a, b) => one_formula(alloc, first_alone(alloc, a.get(), b.get())?),
        Term::LessEq(a, b) => one_formula(alloc, less(alloc, b.get(), a.get())?),
        Term::Less(a, b) => one_formula(alloc, less_eq(alloc, b.get(), a.get())?),
        Term::Eq(a, b) => unequal(alloc, sorts, a.get(), b.get()),
        _ => Ok(None),
    }
}

/// What a goal gives.
pub(crate) fn goal_cases(alloc: Global, sorts: &[Sort], f: &Formula) -> Result<GoalCases, NoMemory>
    ensures { IfOk result (λ o. option_map (λ v. v.items) o ≡ goal_cases sorts.now f.now) }
{
    match f {
        Term::And(a, b) => {
            let (f, g) = both(a.get().copy(alloc), b.get().copy(alloc))?;
            two_goals(alloc, f, g)
        }
        Term::Or(a, b) => {
            let (f, goal) = both(negation(alloc, a.get()), b.get().copy(alloc))?;
            one_goal(alloc, f, goal)
        }
        Term::Implies(a, b) => {
            let (f, goal) = both(a.get().copy(alloc), b.get().copy(alloc))?;
            one_goal(alloc, f, goal)
        }
        Term::Not(a) => one_goal(alloc, a.get().copy(alloc)?, Term::Truth(false)),
        Term::Eq(a, b) => equation_goals(alloc, sorts, a.get(), b.get()),
        _ => Ok(None),
    }
}

/// What an equation of truth values gives.
fn equal_truths(alloc: Global, sorts: &[Sort], a: &Formula, b: &Formula) -> Result<Cases, NoMemory>
    ensures { IfOk result (λ o. option_map (λ v. v.items) o ≡ form_cases sorts.now (Term-F.Eq a.now b.now)) }
{
    if !both_truths(alloc, sorts, a, b)? {
        return Ok(None);
    }
    two_cases(
        alloc,
        two_formulas(alloc, a, b)?,
        two_negations(alloc, a, b)?,
    )
}

/// What the negation of an equation gives.
fn unequal(alloc: Global, sorts: &[Sort], a: &Formula, b: &Formula) -> Result<Cases, NoMemory>
    ensures { IfOk result (λ o. option_map (λ v. v.items) o ≡ negation_cases sorts.now (Term-F.Eq a.now b.now)) }
{
    if both_numbers(alloc, sorts, a, b)? {
        let (f, g) = both(less(alloc, a, b), less(alloc, b, a))?;
        return either(alloc, f, g);
    }
    if both_truths(alloc, sorts, a, b)? {
        return two_cases(
            alloc,
            formula_and_negation(alloc, a, b)?,
            negation_and_formula(alloc, a, b)?,
        );
    }
    Ok(None)
}

/// What a goal gives that is an equation.
fn equation_goals(
    alloc: Global,
    sorts: &[Sort],
    a: &Formula,
    b: &Formula,
) -> Result<GoalCases, NoMemory>
    ensures { IfOk result (λ o. option_map (λ v. v.items) o ≡ form_goals sorts.now (Term-F.Eq a.now b.now)) }
{
    if both_numbers(alloc, sorts, a, b)? {
        let (f, g) = both(less_eq(alloc, a, b), less_eq(alloc, b, a))?;
        return two_goals(alloc, f, g);
    }
    if both_truths(alloc, sorts, a, b)? {
        let (f, g) = both(implication(alloc, a, b), implication(alloc, b, a))?;
        return two_goals(alloc, f, g);
    }
    Ok(None)
}

/// Whether both sides of an equation are numbers.
fn both_numbers(alloc: Global, sorts: &[Sort], a: &Term, b: &Term) -> Result<bool, NoMemory>
    ensures { IfOk result (λ x. x ≡ of_numbers sorts.now a.now b.now) }
{
    let a = kind_of(alloc, a, sorts)?;
    let b = kind_of(alloc, b, sorts)?;
    Ok(a.is_number() && b.is_number())
}

/// Whether both sides of an equation are truth values.
fn both_truths(alloc: Global, sorts: &[Sort], a: &Term, b: &Term) -> Result<bool, NoMemory>
    ensures { IfOk result (λ x. x ≡ of_truths sorts.now a.now b.now) }
{
    let a = kind_of(alloc, a, sorts)?;
    let b = kind_of(alloc, b, sorts)?;
    Ok(a.is_truth() && b.is_truth())
}

fn one_case(alloc: Global, fs: Items<Formula>) -> Result<Cases, NoMemory>
    ensures { IfOk result (λ o. option_map (λ v. v.items) o ≡ one_case fs) }
{
    Ok(Some(only(alloc, fs)?))
}

fn two_cases(alloc: Global, fs: Items<Formula>, gs: Items<Formula>) -> Result<Cases, NoMemory>
    ensures { IfOk result (λ o. option_map (λ v. v.items) o ≡ two_cases fs gs) }
{
    Ok(Some(two(alloc, fs, gs)?))
}

/// One new sequent with one formula.
fn one_formula(alloc: Global, f: Formula) -> Result<Cases, NoMemory>
    ensures { IfOk result (λ o. option_map (λ v. v.items) o ≡ one_case (f ∷ [])) }
{
    one_case(alloc, Items::from_vec(only(alloc, f)?))
}

/// Two new sequents, each with one formula.
fn either(alloc: Global, f: Formula, g: Formula) -> Result<Cases, NoMemory>
    ensures { IfOk result (λ o. option_map (λ v. v.items) o ≡ two_cases (f ∷ []) (g ∷ [])) }
{
    let (fs, gs) = each_alone(alloc, f, g)?;
    two_cases(alloc, fs, gs)
}

fn each_alone<T: Drop>(alloc: Global, f: T, g: T) -> Result<(Items<T>, Items<T>), NoMemory>
    ensures { IfOk result (λ p. (p.0 ≡ f ∷ []) × (p.1 ≡ g ∷ [])) }
{
    let fs = Items::from_vec(only(alloc, f)?);
    let gs = Items::from_vec(only(alloc, g)?);
    Ok((fs, gs))
}

fn one_goal(alloc: Global, f: Formula, goal: Formula) -> Result<GoalCases, NoMemory>
    ensures { IfOk result (λ o. option_map (λ v. v.items) o ≡ one_goal f goal) }
{
    let case = alone_and(alloc, f, goal)?;
    Ok(Some(only(alloc, case)?))
}

fn alone_and<T: Drop>(alloc: Global, f: T, g: T) -> Result<(Items<T>, T), NoMemory>
    ensures { IfOk result (λ p. (p.0 ≡ f ∷ []) × (p.1 ≡ g)) }
{
    let fs = Items::from_vec(only(alloc, f)?);
    Ok((fs, g))
}

fn two_goals(alloc: Global, f: Formula, g: Formula) -> Result<GoalCases, NoMemory>
    ensures { IfOk result (λ o. option_map (λ v. v.items) o ≡ two_goals f g) }
{
    Ok(Some(two(alloc, (Items::new(alloc), f), (Items::new(alloc), g))?))
}

fn two_formulas(alloc: Global, a: &Formula, b: &Formula) -> Result<Items<Formula>, NoMemory>
    ensures { IfOk result (λ fs. fs ≡ a.now ∷ b.now ∷ []) }
{
    let (a, b) = both(a.copy(alloc), b.copy(alloc))?;
    Ok(Items::from_vec(two(alloc, a, b)?))
}

fn two_negations(alloc: Global, a: &Formula, b: &Formula) -> Result<Items<Formula>, NoMemory>
    ensures { IfOk result (λ fs. fs ≡ not_of a.now ∷ not_of b.now ∷ []) }
{
    let (a, b) = both(negation(alloc, a), negation(alloc, b))?;
    Ok(Items::from_vec(two(alloc, a, b)?))
}

fn formula_and_negation(alloc: Global, a: &Formula, b: &Formula) -> Result<Items<Formula>, NoMemory>
    ensures { IfOk result (λ fs. fs ≡ a.now ∷ not_of b.now ∷ []) }
{
    let (a, b) = both(a.copy(alloc), negation(alloc, b))?;
    Ok(Items::from_vec(two(alloc, a, b)?))
}

fn negation_and_formula(alloc: Global, a: &Formula, b: &Formula) -> Result<Items<Formula>, NoMemory>
    ensures { IfOk result (λ fs. fs ≡ not_of a.now ∷ b.now ∷ []) }
{
    let (a, b) = both(negation(alloc, a), b.copy(alloc))?;
    Ok(Items::from_vec(two(alloc, a, b)?))
}

fn only<T: Drop>(alloc: Global, x: T) -> Result<Vec<T>, NoMemory>
    ensures { IfOk result (λ v. v.items ≡ x ∷ []) }
{
    let mut out = Vec::new(alloc);
    out.push(x).map_err(AllocError::from)?;
    Ok(out)
}

fn two<T: Drop>(alloc: Global, x: T, y: T) -> Result<Vec<T>, NoMemory>
    ensures { IfOk result (λ v. v.items ≡ x ∷ y ∷ []) }
{
    let mut out = only(alloc, x)?;
    out.push(y).map_err(AllocError::from)?;
    Ok(out)
}
