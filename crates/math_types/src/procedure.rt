//! The clauses of procedures: those of the heading, the metric, and those of the loops.

ghost use Rattle.std.specs.Prelude.{◌≡◌, ◌++◌, ◌∷◌, [], Some, true, IfOk, OnOk, map};
ghost use Rattle.math_types.specs.Clauses.{clause};
ghost use Rattle.math_types.specs.Components as spec;
ghost use Rattle.math_types.specs.working.Seen.{seen, seen_group};

use crate::clause::{Clause, Group, add_alone};
use crate::heading::add_heading;
use crate::known::Known;
use crate::names::{Speech, add_numbers, names, value};
use crate::types::written;
use facility_bind::Scope;
use math_terms::{Name, NoMemory, Sort, both, with};
use res_ast::{Expr, Heading, PType, Param, Procedure, Stmt, TryCopy};
use sqlite_items::Items;
use std::alloc::Global;
use type_inst::TypeInst;

/// Adds the clauses of a procedure. `own` has the fields by which a realization of a concept represents the own family.
pub(crate) fn add_procedure<'c>(
    alloc: Global,
    groups: &mut Items<Group<'c>>,
    scope: &Scope,
    own: &Option<Items<(Name, Sort)>>,
    procedure: &'c Procedure,
) -> Result<(), NoMemory>
    ensures { OnOk result (map seen_group groups.new ≡ map seen_group groups.old ++ spec.procedure scope.now own.now procedure.now) }
{
    add_heading(alloc, groups, scope, &procedure.heading)?;
    add_metric(alloc, groups, scope, &procedure.heading, &procedure.metric)?;
    add_body(alloc, groups, scope, own, procedure)
}

/// Adds the metric of a procedure that calls itself.
fn add_metric<'c>(
    alloc: Global,
    groups: &mut Items<Group<'c>>,
    scope: &Scope,
    heading: &Heading,
    metric: &'c Option<Expr>,
) -> Result<(), NoMemory>
    ensures { OnOk result (map seen_group groups.new ≡ map seen_group groups.old ++ spec.if_there (spec.metric_of scope.now heading.now) metric.now) }
{
    match metric {
        Some(e) => {
            let known = names(alloc, scope, Speech::Value, heading)?;
            add_alone(alloc, groups, known, Sort::Z, e)
        }
        None => Ok(()),
    }
}

/// Adds the clauses of the loops.
fn add_body<'c>(
    alloc: Global,
    groups: &mut Items<Group<'c>>,
    scope: &Scope,
    own: &Option<Items<(Name, Sort)>>,
    procedure: &'c Procedure,
) -> Result<(), NoMemory>
    ensures { OnOk result (map seen_group groups.new ≡ map seen_group groups.old ++ spec.loops_of scope.now own.now procedure.now ∷ []) }
{
    let known = names_in_loops(alloc, scope, own, procedure)?;
    let mut clauses = Items::new(alloc);
    add_loops(&mut clauses, procedure.body.as_slice())?;
    groups.push(Group { known, clauses })?;
    Ok(())
}

/// Adds the invariants and metrics of loops, in the order of the text.
#[cycle(loops)]
fn add_loops<'c>(clauses: &mut Items<Clause<'c>>, stmts: &'c [Stmt]) -> Result<(), NoMemory>
    ensures { OnOk result (map seen clauses.new ≡ map seen clauses.old ++ spec.in_block (map spec.loops stmts.now)) }
{
    for s in stmts {
        add_loops_in(clauses, s)?;
    }
    Ok(())
}

#[cycle(loops)]
fn add_loops_in<'c>(clauses: &mut Items<Clause<'c>>, s: &'c Stmt) -> Result<(), NoMemory>
    ensures { OnOk result (map seen clauses.new ≡ map seen clauses.old ++ spec.loops s.now) }
{
    match s {
        Stmt::If(_, _, first, second) => {
            add_loops(clauses, first.as_slice())?;
            add_loops(clauses, second.as_slice())
        }
        Stmt::While(_, _, _, invariant, metric, body) => {
            add_clause(clauses, Sort::B, invariant)?;
            add_clause(clauses, Sort::Z, metric)?;
            add_loops(clauses, body.as_slice())
        }
        _ => Ok(()),
    }
}

pub(crate) fn add_clause<'c>(
    clauses: &mut Items<Clause<'c>>,
    wanted: Sort,
    text: &'c Expr,
) -> Result<(), NoMemory>
    ensures { OnOk result (map seen clauses.new ≡ map seen clauses.old ++ clause wanted text.now ∷ []) }
{
    clauses.push(Clause { wanted, text })?;
    Ok(())
}

/// What invariants and metrics of loops know.
fn names_in_loops(
    alloc: Global,
    scope: &Scope,
    own: &Option<Items<(Name, Sort)>>,
    procedure: &Procedure,
) -> Result<Items<Known>, NoMemory>
    ensures { IfOk result (λ ks. ks ≡ spec.names_in_loops scope.now own.now procedure.now) }
{
    let mut out = Items::new(alloc);
    add_parameters(
        alloc,
        &mut out,
        scope,
        own,
        procedure.heading.params.as_slice(),
    )?;
    add_result(alloc, &mut out, scope, &procedure.heading)?;
    add_variables(alloc, &mut out, scope, procedure.vars.as_slice())?;
    add_numbers(alloc, &mut out, scope)?;
    Ok(out)
}

fn add_parameters(
    alloc: Global,
    out: &mut Items<Known>,
    scope: &Scope,
    own: &Option<Items<(Name, Sort)>>,
    params: &[Param],
) -> Result<(), NoMemory>
    ensures { OnOk result (out.new ≡ out.old ++ map (spec.in_loop scope.now own.now) params.now) }
{
    for p in params {
        out.push(in_loop(alloc, scope, own, p)?)?;
    }
    Ok(())
}

fn in_loop(
    alloc: Global,
    scope: &Scope,
    own: &Option<Items<(Name, Sort)>>,
    p: &Param,
) -> Result<Known, NoMemory>
    ensures { IfOk result (λ k. k ≡ spec.in_loop scope.now own.now p.now) }
{
    let t = written(alloc, scope, &p.ptype)?;
    let whole = value(alloc, scope, true, true, &p.name, t.get())?;
    represented(alloc, own, is_own(t.get()), whole)
}

/// A parameter, or by its fields alone where it is of the own family.
pub(crate) fn represented(
    alloc: Global,
    own: &Option<Items<(Name, Sort)>>,
    is_own: bool,
    whole: Known,
) -> Result<Known, NoMemory>
    ensures { IfOk result (λ k. k ≡ spec.represented own.now is_own whole) }
{
    match own {
        Some(fields) => {
            if is_own {
                by_fields(alloc, fields.as_slice(), whole)
            } else {
                Ok(whole)
            }
        }
        None => Ok(whole),
    }
}

/// A name by its fields alone.
pub(crate) fn by_fields(
    alloc: Global,
    fields: &[(Name, Sort)],
    whole: Known,
) -> Result<Known, NoMemory>
    ensures { IfOk result (λ k. k ≡ spec.represented (Some fields.now) true whole) }
{
    let (parts, whole) = with(copy_parts(alloc, fields), whole)?;
    Ok(Known {
        name: whole.name,
        whole: false,
        current: whole.current,
        old: whole.old,
        sort: whole.sort,
        parts,
    })
}

fn copy_parts(alloc: Global, parts: &[(Name, Sort)]) -> Result<Items<(Name, Sort)>, NoMemory>
    ensures { IfOk result (λ ps. ps ≡ parts.now) }
{
    let mut out = Items::new(alloc);
    for part in parts {
        out.push(both(part.0.copy(alloc), part.1.copy(alloc))?)?;
    }
    Ok(out)
}

/// Whether a type is the own family.
fn is_own(t: &TypeInst) -> bool
    ensures { result ≡ spec.is_own t.now }
{
    match t {
        TypeInst::Family(path) => path.is_empty(),
        _ => false,
    }
}

/// Adds the result of a function.
fn add_result(
    alloc: Global,
    out: &mut Items<Known>,
    scope: &Scope,
    heading: &Heading,
) -> Result<(), NoMemory>
    ensures { OnOk result (out.new ≡ out.old ++ spec.result_of scope.now heading.now) }
{
    match &heading.result {
        Some(t) => Ok(out.push(variable(alloc, scope, &heading.name, t)?)?),
        None => Ok(()),
    }
}

fn add_variables(
    alloc: Global,
    out: &mut Items<Known>,
    scope: &Scope,
    vars: &[(Name, PType)],
) -> Result<(), NoMemory>
    ensures { OnOk result (out.new ≡ out.old ++ map (spec.declared scope.now) vars.now) }
{
    for v in vars {
        out.push(declared(alloc, scope, v)?)?;
    }
    Ok(())
}

fn declared(alloc: Global, scope: &Scope, v: &(Name, PType)) -> Result<Known, NoMemory>
    ensures { IfOk result (λ k. k ≡ spec.declared scope.now v.now) }
{
    variable(alloc, scope, &v.0, &v.1)
}

fn variable(alloc: Global, scope: &Scope, name: &Name, t: &PType) -> Result<Known, NoMemory>
    ensures { IfOk result (λ k. k ≡ spec.variable scope.now name.now t.now) }
{
    let t = written(alloc, scope, t)?;
    value(alloc, scope, true, false, name, t.get())
}
