//! The first rows of linear arithmetic: those of formulas, and those of facts on their atoms.

ghost use Rattle.std.specs.Prelude.{◌≡◌, ◌+◌, ◌*◌, ◌<◌, ◌≤◌, ◌^◌, ◌++◌, [], ◌∷◌, IfErr, IfOk, OnOk, length, map, slice_index_or};
ghost use Rattle.math_terms.specs.declared.term.Term.{Term};
ghost use Rattle.num_theory.specs.working.Gathering.{Becomes, gathered_of, no_rows, sum_of, with_sums};
ghost use Rattle.num_theory.specs.Laws.{RowsAreTrue};
ghost use Rattle.num_theory.specs.Table as spec;

use crate::facts::facts_of;
use crate::forms::is_same;
use crate::gathering::{Gathering, RowSum, add_facts, add_formula};
use crate::laws::{rows_fit, rows_follow};
use crate::row::reduce;
use crate::table::{RowError, RowTable};
use crate::vectors::push;
use math_terms::{Formula, Items, NoMemory, RowName, Sort, Term};
use std::alloc::Global;

/// More atoms than a table may have, by one.
const PAST_ATOMS: usize = 64;

/// The rows of formulas, which are numbered from 1, and of the facts on their atoms. The variables have the sorts of
/// `vars`, numbered from 1; an equation of other kinds than numbers gives no row.
pub fn rows(alloc: Global, vars: &[Sort], formulas: &[Formula]) -> Result<RowTable, RowError>
    requires { length formulas.now < 2 ^ 32 }
    ensures exact { let table = spec.gathered 64 vars.now formulas.now in
        IfOk result (λ t. (t.atoms ≡ table.atoms) × (t.rows ≡ spec.rows_of table) × (t.names ≡ spec.names_of table)) }
    ensures meaning { IfOk result (λ t. RowsAreTrue formulas.now t.atoms t.rows) }
    ensures table { IfOk result spec.IsTable }
    ensures refused { IfErr result (λ e. spec.IsRowRefusal e (spec.gathered 64 vars.now formulas.now)) }
{
    rows_follow();
    rows_fit();
    let mut table = empty_table(alloc);
    match add_formulas(alloc, &mut table, vars, formulas) {
        Ok(()) => {}
        Err(e) => return Err(e),
    }
    match add_all_facts(alloc, &mut table) {
        Ok(()) => Ok(table_of(alloc, table)?),
        Err(e) => Err(e),
    }
}

fn empty_table(alloc: Global) -> Gathering
    ensures { gathered_of result ≡ no_rows }
{
    Gathering {
        atoms: Vec::new(alloc),
        sums: Vec::new(alloc),
        facts: 0,
    }
}

fn add_formulas(
    alloc: Global,
    table: &mut Gathering,
    vars: &[Sort],
    formulas: &[Formula],
) -> Result<(), RowError>
    requires few { spec.IsFew (gathered_of table.old) }
    requires numbered { length formulas.now < 2 ^ 32 }
    ensures { Becomes result table.new (with_sums (gathered_of table.old) (spec.sums_from vars.now 1 formulas.now)) }
{
    for k in 0..formulas.len() {
        match add_formula(alloc, table, vars, k as u32 + 1, &formulas[k]) {
            Ok(()) => {}
            Err(e) => return Err(e),
        }
    }
    Ok(())
}

/// Adds the facts on each atom in turn, those that come with facts among them.
fn add_all_facts(alloc: Global, table: &mut Gathering) -> Result<(), RowError>
    requires few { spec.IsFew (gathered_of table.old) }
    requires none { table.old.facts ≡ 0 }
    ensures { Becomes result table.new (spec.with_all_facts 64 0 (gathered_of table.old)) }
{
    for i in 0..PAST_ATOMS {
        if i >= table.atoms.len() {
            return Ok(());
        }
        match add_facts_on(alloc, table, i) {
            Ok(()) => {}
            Err(e) => return Err(e),
        }
    }
    Ok(())
}

/// Adds the facts on the atom at a place.
fn add_facts_on(alloc: Global, table: &mut Gathering, i: usize) -> Result<(), RowError>
    requires few { spec.IsFew (gathered_of table.old) }
    requires within { i < length table.old.atoms.items }
    requires room { table.old.facts + 2 < 2 ^ 32 }
    ensures added { (atom : Term) → atom ≡ slice_index_or table.old.atoms.items i atom → Becomes result table.new (spec.with_facts (gathered_of table.old) atom) }
    ensures counted { OnOk result (table.new.facts ≤ table.old.facts + 2) }
{
    let facts = facts_of(alloc, &table.atoms[i])?;
    add_facts(alloc, table, facts.as_slice())
}

/// The table with a column for each atom.
fn table_of(alloc: Global, table: Gathering) -> Result<RowTable, NoMemory>
    ensures { IfOk result (λ t. (t.atoms ≡ table.atoms.items) × (t.rows ≡ spec.rows_of (gathered_of table)) × (t.names ≡ spec.names_of (gathered_of table))) }
{
    let rows = rows_in_columns(alloc, &table.atoms, &table.sums)?;
    let names = names_in_order(alloc, &table.sums)?;
    Ok(RowTable {
        atoms: Items::from_vec(table.atoms),
        rows,
        names,
    })
}

fn rows_in_columns(
    alloc: Global,
    atoms: &[Term],
    sums: &[RowSum],
) -> Result<Items<Items<i32>>, NoMemory>
    ensures { IfOk result (λ rows. rows ≡ map (spec.row_of atoms.now) (map sum_of sums.now)) }
{
    let mut rows = Items::new(alloc);
    for sum in sums {
        rows.push(row_of(alloc, atoms, sum)?)?;
    }
    Ok(rows)
}

fn names_in_order(alloc: Global, sums: &[RowSum]) -> Result<Items<RowName>, NoMemory>
    ensures { IfOk result (λ names. names ≡ map (λ s. s.name) (map sum_of sums.now)) }
{
    let mut names = Items::new(alloc);
    for sum in sums {
        names.push(sum.name)?;
    }
    Ok(names)
}

/// A row with a column for each atom, reduced.
fn row_of(alloc: Global, atoms: &[Term], sum: &RowSum) -> Result<Items<i32>, NoMemory>
    ensures { IfOk result (λ row. row ≡ spec.row_of atoms.now (sum_of sum.now)) }
{
    let mut row = Vec::new(alloc);
    for atom in atoms {
        push(&mut row, coefficient(atom, sum.products.as_slice()))?;
    }
    push(&mut row, sum.constant)?;
    reduce(&mut row);
    Ok(Items::from_vec(row))
}

/// The coefficient of an atom, 0 where it is not there.
fn coefficient(atom: &Term, products: &[(i32, Term)]) -> i32
    ensures { result ≡ spec.coefficient atom.now products.now }
{
    for p in products {
        if is_same(atom, &p.1) {
            return p.0;
        }
    }
    0
}
