//! Tables while they are made: their atoms and rows, before the rows have columns.

ghost use Rattle.std.specs.Prelude.{◌≡◌, ◌+◌, ◌<◌, ◌^◌, ◌++◌, [], ◌∷◌, IfOk, OnOk, length, ◌+ℤ◌, ◌&&◌, if◌then◌else◌};
ghost use Rattle.std.specs.List.{list_any};
ghost use Rattle.math_terms.specs.Heads.{same_term};
ghost use Rattle.math_terms.specs.Kinds.{kind};
ghost use Rattle.math_terms.specs.Sorts.{is_z};
ghost use Rattle.num_theory.specs.Rows.{narrow};
ghost use Rattle.num_theory.specs.working.Gathering.{Becomes, gathered_of, sum_of, with_each_fact, with_fact, with_sums};
ghost use Rattle.num_theory.specs.Table as spec;

use crate::forms::is_same;
use crate::linear_form::linear_difference;
use crate::row::is_narrow;
use crate::table::{LinearForm, RowError};
use crate::vectors::push;
use math_terms::{Binary, Items, NoMemory, RowName, Sort, Term, View, kind_of};
use std::alloc::Global;

const MOST_ATOMS: usize = 63;

const MOST_ROWS: usize = 256;

/// A row with its name, before its atoms have columns: the sum of the products and the constant is at least 0.
#[derive(Drop)]
pub(crate) struct RowSum {
    pub name: RowName,
    pub products: Items<(i32, Term)>,
    pub constant: i32,
}

/// Atoms and rows in order, and how many facts on atoms there were.
#[derive(Drop)]
pub(crate) struct Gathering {
    pub atoms: Vec<Term>,
    pub sums: Vec<RowSum>,
    pub facts: u32,
}

fn has_atom(atoms: &[Term], t: &Term) -> bool
    ensures { result ≡ list_any (same_term t.now) atoms.now }
{
    atoms.iter().any(|atom| is_same(t, atom))
}

fn add_atom(alloc: Global, atoms: &mut Vec<Term>, t: &Term) -> Result<(), NoMemory>
    ensures { OnOk result (atoms.new.items ≡ spec.with_atom atoms.old.items t.now) }
{
    if has_atom(atoms, t) {
        return Ok(());
    }
    push(atoms, t.copy(alloc)?)
}

fn add_atoms(alloc: Global, atoms: &mut Vec<Term>, products: &[(i32, Term)]) -> Result<(), NoMemory>
    ensures { OnOk result (atoms.new.items ≡ spec.with_atoms atoms.old.items products.now) }
{
    for p in products {
        add_atom(alloc, atoms, &p.1)?;
    }
    Ok(())
}

/// Adds a row and its atoms.
fn add_sum(alloc: Global, table: &mut Gathering, sum: RowSum) -> Result<(), RowError>
    ensures { Becomes result table.new (with_sums (gathered_of table.old) (sum_of sum ∷ [])) }
{
    add_atoms(alloc, &mut table.atoms, sum.products.as_slice())?;
    push(&mut table.sums, sum)?;
    if table.atoms.len() > MOST_ATOMS || table.sums.len() > MOST_ROWS {
        return Err(RowError::TooMany);
    }
    Ok(())
}

fn narrow_sum(a: i32, b: i32) -> Option<i32>
    ensures { result ≡ (if narrow (a +ℤ b) then Some (a +ℤ b) else None) }
{
    let sum = i64::from(a) + i64::from(b);
    if is_narrow(sum) {
        Some(sum as i32)
    } else {
        None
    }
}

/// Adds the row of a form with a number added to its constant, unless the constant is wide then.
fn add_form(
    alloc: Global,
    table: &mut Gathering,
    name: RowName,
    shift: i32,
    form: LinearForm,
) -> Result<(), RowError>
    requires { spec.IsFew (gathered_of table.old) }
    ensures { Becomes result table.new (with_sums (gathered_of table.old) (spec.sums_of_form name shift (Some (form.products, form.constant)))) }
{
    let LinearForm { products, constant } = form;
    match narrow_sum(constant, shift) {
        Some(constant) => add_sum(
            alloc,
            table,
            RowSum {
                name,
                products,
                constant,
            },
        ),
        None => Ok(()),
    }
}

/// Adds the row of `left <= right`, and with the shift -1 that of `left < right`.
fn add_difference(
    alloc: Global,
    table: &mut Gathering,
    name: RowName,
    shift: i32,
    left: &Term,
    right: &Term,
) -> Result<(), RowError>
    requires { spec.IsFew (gathered_of table.old) }
    ensures { Becomes result table.new (with_sums (gathered_of table.old) (spec.difference name shift left.now right.now)) }
{
    match linear_difference(alloc, right, left)? {
        Some(form) => add_form(alloc, table, name, shift, form),
        None => Ok(()),
    }
}

/// Whether the kind of a term is that of numbers.
fn is_number(alloc: Global, t: &Term, vars: &[Sort]) -> Result<bool, NoMemory>
    ensures { IfOk result (λ answer. answer ≡ is_z (kind vars.now t.now)) }
{
    Ok(kind_of(alloc, t, vars)?.is_number())
}

fn are_numbers(alloc: Global, a: &Term, b: &Term, vars: &[Sort]) -> Result<bool, NoMemory>
    ensures { IfOk result (λ answer. answer ≡ (is_z (kind vars.now a.now) && is_z (kind vars.now b.now))) }
{
    Ok(is_number(alloc, a, vars)? && is_number(alloc, b, vars)?)
}

/// Adds the two rows of an equation of numbers.
fn add_equation(
    alloc: Global,
    table: &mut Gathering,
    vars: &[Sort],
    k: u32,
    a: &Term,
    b: &Term,
) -> Result<(), RowError>
    requires { spec.IsFew (gathered_of table.old) }
    ensures { Becomes result table.new (with_sums (gathered_of table.old) (spec.sums_of_equation vars.now k a.now b.now)) }
{
    if !are_numbers(alloc, a, b, vars)? {
        return Ok(());
    }
    match add_difference(alloc, table, RowName::Hyp(k), 0, a, b) {
        Ok(()) => add_difference(alloc, table, RowName::Second(k), 0, b, a),
        Err(e) => Err(e),
    }
}

/// Adds the rows of formula k.
pub(crate) fn add_formula(
    alloc: Global,
    table: &mut Gathering,
    vars: &[Sort],
    k: u32,
    formula: &Term,
) -> Result<(), RowError>
    requires { spec.IsFew (gathered_of table.old) }
    ensures { Becomes result table.new (with_sums (gathered_of table.old) (spec.sums_of vars.now k formula.now)) }
{
    match formula.view() {
        View::Two(Binary::LessEq, a, b) => {
            add_difference(alloc, table, RowName::Hyp(k), 0, a, b)
        }
        View::Two(Binary::Less, a, b) => { add_difference(alloc, table, RowName::Hyp(k), -1, a, b) }
        View::Two(Binary::Eq, a, b) => add_equation(alloc, table, vars, k, a, b),
        _ => Ok(()),
    }
}

/// Adds the row of a fact, which is counted.
fn add_fact(alloc: Global, table: &mut Gathering, fact: &Term) -> Result<(), RowError>
    requires few { spec.IsFew (gathered_of table.old) }
    requires room { table.old.facts + 1 < 2 ^ 32 }
    ensures { Becomes result table.new (with_fact (gathered_of table.old) fact.now) }
{
    table.facts += 1;
    let name = RowName::Atom(table.facts);
    match fact.view() {
        View::Two(Binary::LessEq, a, b) => add_difference(alloc, table, name, 0, a, b),
        _ => Ok(()),
    }
}

/// Adds the rows of facts, which are counted.
pub(crate) fn add_facts(
    alloc: Global,
    table: &mut Gathering,
    facts: &[Term],
) -> Result<(), RowError>
    requires few { spec.IsFew (gathered_of table.old) }
    requires room { table.old.facts + length facts.now < 2 ^ 32 }
    ensures { Becomes result table.new (with_each_fact (gathered_of table.old) facts.now) }
{
    for fact in facts {
        match add_fact(alloc, table, fact) {
            Ok(()) => {}
            Err(e) => return Err(e),
        }
    }
    Ok(())
}
