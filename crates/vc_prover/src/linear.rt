//! How sequents are closed by linear arithmetic.

ghost use Rattle.std.specs.Prelude.{◌≡◌, ◌+◌, ◌<◌, ◌≤◌, ◌^◌, ◌++◌, [], ◌∷◌, IfOk, List, length, map};
ghost use Rattle.num_theory.specs.Naming as naming;
ghost use Rattle.vc_sequents.specs.Splitting.{less as less_of, less_eq as less_eq_of, sorts_of};
ghost use Rattle.vc_prover.specs.Search as spec;
ghost use Rattle.vc_prover.specs.working.Answers.{IsTableOf, chosen, lines_over, step_by};

use cert_form::Step;
use linear_prover::{RefuteError, refute};
use math_terms::{Binary, Formula, Line, NoMemory, RowName, Sort, Term, View, boxed, copy_terms};
use num_theory::{RowError, RowTable, rows};
use sqlite_items::Items;
use std::alloc::Global;
use vc_sequents::Sequent;

/// How the sequent is closed by the rows of its hypotheses and its negated goal. The sorts are those of its variables.
pub(crate) fn by_linear(
    alloc: Global,
    s: &Sequent,
    sorts: &[Sort],
) -> Result<Option<Step>, NoMemory>
    requires few { length s.now.hyps < 2 ^ 31 }
    requires sorts_of_vars { sorts.now ≡ sorts_of s.now }
    ensures { IfOk result (λ o. o ≡ spec.by_linear s.now) }
{
    let formulas = formulas_of(alloc, s)?;
    match rows(alloc, sorts, formulas.as_slice()) {
        Ok(table) => by_table(alloc, s, &table),
        Err(RowError::TooMany) => Ok(None),
        Err(RowError::NoMemory) => Err(NoMemory),
    }
}

/// The same, by the table of these rows.
fn by_table(alloc: Global, s: &Sequent, table: &RowTable) -> Result<Option<Step>, NoMemory>
    requires few { length s.now.hyps < 2 ^ 31 }
    requires table { IsTableOf (spec.table_of s.now) table.now }
    ensures { IfOk result (λ o. o ≡ spec.by_linear s.now) }
{
    match refute(alloc, table) {
        Ok(found) => {
            let step = linear_step(
                alloc,
                s.hyps.len() as u32,
                table.names.as_slice(),
                found.lines.as_slice(),
            )?;
            Ok(Some(step))
        }
        Err(RefuteError::NoRefutation) => Ok(None),
        Err(RefuteError::NoMemory) => Err(NoMemory),
    }
}

/// The hypotheses and the negated goal.
fn formulas_of(alloc: Global, s: &Sequent) -> Result<Items<Formula>, NoMemory>
    ensures { IfOk result (λ fs. fs ≡ s.now.hyps ++ naming.negated_goal s.now.goal) }
{
    let mut formulas = copy_terms(alloc, s.hyps.as_slice())?;
    formulas.append(negated_goal(alloc, &s.goal)?)?;
    Ok(formulas)
}

fn negated_goal(alloc: Global, f: &Formula) -> Result<Items<Formula>, NoMemory>
    ensures { IfOk result (λ fs. fs ≡ naming.negated_goal f.now) }
{
    match f.view() {
        View::Two(Binary::Less, a, b) => only(alloc, less_eq(alloc, b, a)?),
        View::Two(Binary::LessEq, a, b) => only(alloc, less(alloc, b, a)?),
        _ => Ok(Items::new(alloc)),
    }
}

fn less(alloc: Global, a: &Term, b: &Term) -> Result<Formula, NoMemory>
    ensures { IfOk result (λ f. f ≡ less_of a.now b.now) }
{
    let a = boxed(alloc, a.copy(alloc)?)?;
    let b = boxed(alloc, b.copy(alloc)?)?;
    Ok(Term::Less(a, b))
}

fn less_eq(alloc: Global, a: &Term, b: &Term) -> Result<Formula, NoMemory>
    ensures { IfOk result (λ f. f ≡ less_eq_of a.now b.now) }
{
    let a = boxed(alloc, a.copy(alloc)?)?;
    let b = boxed(alloc, b.copy(alloc)?)?;
    Ok(Term::LessEq(a, b))
}

fn only(alloc: Global, f: Formula) -> Result<Items<Formula>, NoMemory>
    ensures { IfOk result (λ fs. fs ≡ f ∷ []) }
{
    let mut formulas = Items::new(alloc);
    formulas.push(f)?;
    Ok(formulas)
}

/// The step of lines over rows with these names.
fn linear_step(
    alloc: Global,
    hyps: u32,
    names: &[RowName],
    lines: &[Line],
) -> Result<Step, NoMemory>
    requires few { length names.now ≤ 256 }
    requires numbered { hyps < 2 ^ 31 }
    ensures { IfOk result (λ st. st ≡ step_by hyps names.now lines.now) }
{
    Ok(Step::Linear {
        rows: used_names(alloc, hyps, names, lines)?,
        lines: lines_of(alloc, names.len() as u32, lines)?,
    })
}

/// The names of the rows that are used.
fn used_names(
    alloc: Global,
    hyps: u32,
    names: &[RowName],
    lines: &[Line],
) -> Result<Items<RowName>, NoMemory>
    requires few { length names.now ≤ 256 }
    requires numbered { hyps < 2 ^ 31 }
    ensures { IfOk result (λ out. out ≡ map (naming.name_among hyps) (chosen 1 names.now lines.now)) }
{
    let mut out = Items::new(alloc);
    for (at, name) in names.iter().enumerate() {
        if is_used(at as u32 + 1, lines) {
            out.push(name_among(hyps, *name))?;
        }
    }
    Ok(out)
}

/// The name of a row, where that of the negated goal is one of its own.
fn name_among(hyps: u32, name: RowName) -> RowName
    requires { hyps < 2 ^ 31 }
    ensures { result ≡ naming.name_among hyps name }
{
    match name {
        RowName::Hyp(k) => { if k == hyps + 1 { RowName::Goal } else { name } }
        _ => name,
    }
}

/// Whether a line names this row.
fn is_used(k: u32, lines: &[Line]) -> bool
    ensures { result ≡ spec.is_used k lines.now }
{
    lines.iter().any(|l| l.i == k || l.j == k)
}

/// The lines over the rows that are used, of n first rows; none where a first row refutes alone.
fn lines_of(alloc: Global, n: u32, lines: &[Line]) -> Result<Items<Line>, NoMemory>
    requires { n ≤ 256 }
    ensures { IfOk result (λ out. (names : List RowName) → length names ≡ n → out ≡ lines_over names lines.now) }
{
    if is_alone(lines) {
        return Ok(Items::new(alloc));
    }
    let used = used_rows(alloc, n, lines)?;
    called_lines(alloc, n, used.as_slice(), lines)
}

/// Whether a first row refutes alone.
fn is_alone(lines: &[Line]) -> bool
    ensures { result ≡ spec.is_alone lines.now }
{
    match lines {
        [l] => l.i == l.j,
        _ => false,
    }
}

/// The numbers of the first rows that are used.
fn used_rows(alloc: Global, n: u32, lines: &[Line]) -> Result<Items<u32>, NoMemory>
    requires { n ≤ 256 }
    ensures { IfOk result (λ used. used ≡ spec.used_from 1 n lines.now) }
{
    let mut used = Items::new(alloc);
    for k in 0..n {
        if is_used(k + 1, lines) {
            used.push(k + 1)?;
        }
    }
    Ok(used)
}

/// The lines, where rows are called over those that are used.
fn called_lines(
    alloc: Global,
    n: u32,
    used: &[u32],
    lines: &[Line],
) -> Result<Items<Line>, NoMemory>
    requires few { length used.now ≤ n }
    requires rows { n ≤ 256 }
    ensures { IfOk result (λ out. out ≡ map (spec.called_line n used.now) lines.now) }
{
    let mut out = Items::new(alloc);
    for l in lines {
        out.push(called_line(n, used, l))?;
    }
    Ok(out)
}

fn called_line(n: u32, used: &[u32], l: &Line) -> Line
    requires few { length used.now ≤ n }
    requires rows { n ≤ 256 }
    ensures { result ≡ spec.called_line n used.now l.now }
{
    Line {
        p: l.p,
        i: called(n, used, l.i),
        q: l.q,
        j: called(n, used, l.j),
    }
}

/// How a row is called over those that are used, of n first rows.
fn called(n: u32, used: &[u32], k: u32) -> u32
    requires few { length used.now ≤ n }
    requires rows { n ≤ 256 }
    ensures { result ≡ spec.called n used.now k }
{
    if k <= n {
        place_of(k, used)
    } else {
        (k - n) + used.len() as u32
    }
}

/// The place of a number, from 1, and that of the last where it is not there.
fn place_of(k: u32, numbers: &[u32]) -> u32
    requires { length numbers.now ≤ 256 }
    ensures { result ≡ spec.place_of k numbers.now }
{
    for (at, m) in numbers.iter().enumerate() {
        if *m == k {
            return at as u32 + 1;
        }
    }
    numbers.len() as u32
}
