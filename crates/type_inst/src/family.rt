//! Families: the descriptors of their models and clauses, with what is given for their formals.

ghost use Rattle.std.specs.Prelude.{◌≡◌, ◌+◌, ◌++◌, [], IfOk, OnOk, Some, map};
ghost use Rattle.std.specs.Option.{option_map};
ghost use Rattle.math_terms.specs.declared.term.Term.TheViews.{out-Term};
ghost use Rattle.math_terms.specs.Filling.{filled};
ghost use Rattle.type_inst.specs.Assertions.{assertion, names_in};
ghost use Rattle.type_inst.specs.Descriptors as spec;

use crate::assertion::{Meaning, term_of};
use crate::descriptor::desc_with;
use crate::formals::{add_numbers, after, given_numbers, types_of, whole};
use crate::model::{model, part_names};
use crate::types::{BoundFamily, FormalArg};
use math_terms::{Desc, Name, NoMemory, Term, both, boxed, filled, with};
use res_ast::{Expr, Family};
use sqlite_items::Items;
use std::alloc::Global;

/// What the names of a family's clauses mean: the exemplar, and the formals as variables and with their numbers; and what is
/// given for the Integer formals.
#[derive(Drop)]
struct Context {
    meanings: Items<Meaning>,
    types: Items<(Name, u32)>,
    numbers: Items<Term>,
}

/// The descriptors of families, each of which stands on those before it.
pub(crate) fn known_descs(alloc: Global, families: &[BoundFamily]) -> Result<Items<Desc>, NoMemory>
    ensures { IfOk result (λ ds. ds ≡ spec.known_from families.now [] families.now) }
{
    let mut known = Items::new(alloc);
    for f in families {
        let next = bound_after(alloc, families, known.as_slice(), f)?;
        known.push(next)?;
    }
    Ok(known)
}

/// The descriptor of a family after those that are known.
fn bound_after(
    alloc: Global,
    families: &[BoundFamily],
    known: &[Desc],
    f: &BoundFamily,
) -> Result<Desc, NoMemory>
    ensures { IfOk result (λ d. d ≡ spec.bound_after families.now known.now f.now) }
{
    let descs = given_descs(alloc, f.formals.as_slice(), families, known)?;
    bound(alloc, f, descs.as_slice())
}

/// The descriptors of the types that are given for type formals.
fn given_descs(
    alloc: Global,
    formals: &[(Name, FormalArg)],
    families: &[BoundFamily],
    known: &[Desc],
) -> Result<Items<Desc>, NoMemory>
    ensures { IfOk result (λ ds. ds ≡ map (spec.desc_with (spec.among families.now known.now)) (spec.given_types formals.now)) }
{
    let mut out = Items::new(alloc);
    for formal in formals {
        add_desc(alloc, &mut out, &formal.1, families, known)?;
    }
    Ok(out)
}

fn add_desc(
    alloc: Global,
    out: &mut Items<Desc>,
    arg: &FormalArg,
    families: &[BoundFamily],
    known: &[Desc],
) -> Result<(), NoMemory>
    ensures { OnOk result (out.new ≡ out.old ++ map (spec.desc_with (spec.among families.now known.now)) (spec.given_type arg.now)) }
{
    match arg {
        FormalArg::Type(t) => Ok(out.push(desc_with(alloc, t, families, known)?)?),
        FormalArg::Number(_) => Ok(()),
    }
}

/// The descriptor of a family, where its type formals have these descriptors.
fn bound(alloc: Global, f: &BoundFamily, descs: &[Desc]) -> Result<Desc, NoMemory>
    ensures { IfOk result (λ d. d ≡ spec.bound descs.now f.now) }
{
    let context = context_of(alloc, &f.family, f.formals.as_slice())?;
    let model = model(
        alloc,
        f.family.model.parts.as_slice(),
        context.types.as_slice(),
        descs,
    )?;
    constrained(alloc, &f.family, &context, descs, model)
}

fn context_of(
    alloc: Global,
    family: &Family,
    formals: &[(Name, FormalArg)],
) -> Result<Context, NoMemory>
    ensures meanings { IfOk result (λ c. c.meanings ≡ spec.meanings family.now formals.now) }
    ensures types { IfOk result (λ c. c.types ≡ spec.types_from 0 formals.now) }
    ensures numbers { IfOk result (λ c. c.numbers ≡ spec.given_numbers formals.now) }
{
    let lists = both(types_of(alloc, formals), given_numbers(alloc, formals));
    let (meanings, (types, numbers)) = both(meanings_of(alloc, family, formals), lists)?;
    Ok(Context {
        meanings,
        types,
        numbers,
    })
}

/// A clause about the described value.
fn clause(alloc: Global, e: &Expr, context: &Context, descs: &[Desc]) -> Result<Term, NoMemory>
    ensures { IfOk result (λ t. t ≡ filled context.now.numbers descs.now (assertion (names_in context.now.meanings context.now.types) e.now)) }
{
    let t = term_of(
        alloc,
        e,
        context.meanings.as_slice(),
        context.types.as_slice(),
    )?;
    filled(alloc, &t, context.numbers.as_slice(), descs)
}

/// The same, of a clause that may be missing.
fn clause_if_there(
    alloc: Global,
    e: &Option<Expr>,
    context: &Context,
    descs: &[Desc],
) -> Result<Option<Term>, NoMemory>
    ensures { IfOk result (λ o. o ≡ option_map (λ e. filled context.now.numbers descs.now (assertion (names_in context.now.meanings context.now.types) e)) e.now) }
{
    match e {
        Some(e) => Ok(Some(clause(alloc, e, context, descs)?)),
        None => Ok(None),
    }
}

/// The descriptor with the family's clauses.
fn constrained(
    alloc: Global,
    family: &Family,
    context: &Context,
    descs: &[Desc],
    model: Desc,
) -> Result<Desc, NoMemory>
    ensures { IfOk result (λ d. d ≡ spec.with_clauses model (option_map (λ e. filled context.now.numbers descs.now (assertion (names_in context.now.meanings context.now.types) e)) family.now.constraint) (filled context.now.numbers descs.now (assertion (names_in context.now.meanings context.now.types) family.now.initial))) }
{
    let clauses = both(
        clause_if_there(alloc, &family.constraint, context, descs),
        clause(alloc, &family.initial, context, descs),
    );
    let ((own, initial), model) = with(clauses, model)?;
    with_clauses(alloc, model, own, initial)
}

/// The descriptor of a model with a constraint and an initial formula.
fn with_clauses(
    alloc: Global,
    model: Desc,
    own: Option<Term>,
    initial: Term,
) -> Result<Desc, NoMemory>
    ensures { IfOk result (λ d. d ≡ spec.with_clauses model own initial) }
{
    let Desc {
        shape,
        constraint,
        initial: _,
    } = model;
    let (constraint, (shape, initial)) = with(joined(alloc, constraint, own), (shape, initial))?;
    Ok(Desc {
        shape,
        constraint,
        initial,
    })
}

/// Both constraints, of which `true` says nothing.
fn joined(alloc: Global, a: Term, b: Option<Term>) -> Result<Term, NoMemory>
    ensures { IfOk result (λ t. t ≡ spec.joined a b) }
{
    match b {
        Some(b) => joined_both(alloc, a, b),
        None => Ok(a),
    }
}

fn joined_both(alloc: Global, a: Term, b: Term) -> Result<Term, NoMemory>
    ensures { IfOk result (λ t. t ≡ spec.joined a (Some b)) }
{
    if is_true(&a) {
        Ok(b)
    } else if is_true(&b) {
        Ok(a)
    } else {
        let (a, b) = both(boxed(alloc, a), boxed(alloc, b))?;
        Ok(Term::And(a, b))
    }
}

fn is_true(t: &Term) -> bool
    ensures { result ≡ spec.is_true (out-Term t.now) }
{
    match t {
        Term::Truth(b) => *b,
        _ => false,
    }
}

/// What the names of the clauses mean, the exemplar before the formals.
fn meanings_of(
    alloc: Global,
    family: &Family,
    formals: &[(Name, FormalArg)],
) -> Result<Items<Meaning>, NoMemory>
    ensures { IfOk result (λ ms. ms ≡ spec.meanings family.now formals.now) }
{
    let mut out = Items::new(alloc);
    out.push(whole(alloc, &family.exemplar, Term::Var(0))?)?;
    add_parts(alloc, &mut out, &family.exemplar, part_names(&family.model))?;
    add_numbers(alloc, &mut out, 1, formals)?;
    Ok(out)
}

fn part_of(alloc: Global, name: &Name, part: &Name, k: u32) -> Result<Meaning, NoMemory>
    ensures { IfOk result (λ m. m ≡ spec.part_of name.now part.now k) }
{
    let names = both(name.copy(alloc), part.copy(alloc));
    let ((name, part), value) = both(names, boxed(alloc, Term::Var(0)))?;
    Ok(Meaning {
        old: false,
        name,
        part: Some(part),
        term: Term::Proj(k, value),
    })
}

fn add_parts(
    alloc: Global,
    out: &mut Items<Meaning>,
    name: &Name,
    parts: &[Name],
) -> Result<(), NoMemory>
    ensures { OnOk result (out.new ≡ out.old ++ spec.parts_from name.now 0 parts.now) }
{
    let mut next = 0;
    for part in parts {
        out.push(part_of(alloc, name, part, next)?)?;
        next = after(next)?;
    }
    Ok(())
}
