//! The clauses of a concept and of its enhancements, with the arguments of a facility put for the formals.

ghost use Rattle.std.specs.Prelude.{◌≡◌, ◌+◌, ◌++◌, ◌∷◌, [], None, Some, IfOk, OnOk, length, map};
ghost use Rattle.std.specs.Option.{option_map};
ghost use Rattle.math_terms.specs.Filling.{filled};
ghost use Rattle.type_inst.specs.Assertions.{assertion, names_in};
ghost use Rattle.type_inst.specs.Descriptors.{desc, given_numbers, given_types, listed, numbers_from, types_from};
ghost use Rattle.facility_bind.specs.Clauses as spec;

use crate::numbers::{number, sum};
use crate::scope::Scope;
use math_terms::{Desc, Formula, Name, NoMemory, Term, both, boxed, filled, with};
use res_ast::{Expr, Family, Heading, PType, Param};
use sqlite_items::Items;
use std::alloc::Global;
use type_inst::{
    FormalArg, Meaning, TypeInst, add_numbers, desc_of, given_numbers, given_types, part_names,
    term_of, types_of,
};

/// What a facility is bound with: what is known where it is declared, what is known in its concept, where something is given for
/// the formals, and the concept's family.
#[derive(Clone, Copy)]
pub(crate) struct Binding<'b> {
    pub scope: &'b Scope,
    pub inner: &'b Scope,
    pub family: &'b Option<Family>,
}

/// What is put in the clauses of an operation: terms for the variables, and descriptors for the type formals.
#[derive(Drop)]
pub(crate) struct Put {
    vars: Items<Term>,
    descs: Items<Desc>,
}

/// So many variables, from a first one on.
pub(crate) fn variables(alloc: Global, first: u32, count: u32) -> Result<Items<Term>, NoMemory>
    ensures { IfOk result (λ ts. ts ≡ spec.variables first count) }
{
    let mut out = Items::new(alloc);
    for k in 0..count {
        out.push(variable(sum(first, k)?))?;
    }
    Ok(out)
}

/// The variable of this number.
pub(crate) fn variable(number: u32) -> Term
    ensures { result ≡ spec.variable number }
{
    Term::Var(number)
}

/// The variables that come in place of the Integer formals where these stand behind others.
fn places_behind(alloc: Global, before: u32, scope: &Scope) -> Result<Items<Term>, NoMemory>
    ensures { IfOk result (λ ts. ts ≡ spec.variables (before + 1) (spec.integers scope.now)) }
{
    let count = number(given_numbers(alloc, scope.formals.as_slice())?.len())?;
    variables(alloc, sum(before, 1)?, count)
}

/// A term over the Integer formals, where these come behind others.
pub(crate) fn behind(alloc: Global, before: u32, scope: &Scope, t: &Term) -> Result<Term, NoMemory>
    ensures { IfOk result (λ r. r ≡ spec.behind before (spec.integers scope.now) t.now) }
{
    let places = places_behind(alloc, before, scope)?;
    filled(alloc, t, places.as_slice(), &[])
}

/// The same, of a list of terms, with the places that the formals take.
fn all_behind(alloc: Global, terms: &[Term], places: &[Term]) -> Result<Items<Term>, NoMemory>
    ensures { IfOk result (λ ts. ts ≡ map (filled places.now []) terms.now) }
{
    let mut out = Items::new(alloc);
    for t in terms {
        out.push(filled(alloc, t, places, &[])?)?;
    }
    Ok(out)
}

/// The first variables, which stay, and then the terms for the Integer formals.
fn put_for_variables(
    alloc: Global,
    before: u32,
    numbers: &[Term],
    places: &[Term],
) -> Result<Items<Term>, NoMemory>
    ensures { IfOk result (λ ts. ts ≡ spec.variables 1 before ++ map (filled places.now []) numbers.now) }
{
    let (mut vars, more) = both(
        variables(alloc, 1, before),
        all_behind(alloc, numbers, places),
    )?;
    vars.append(more)?;
    Ok(vars)
}

/// The descriptor of a type, of which the initial formula is over the Integer formals behind others.
fn desc_behind(
    alloc: Global,
    t: &TypeInst,
    scope: &Scope,
    before: u32,
    places: &[Term],
) -> Result<Desc, NoMemory>
    requires { places.now ≡ spec.variables (before + 1) (spec.integers scope.now) }
    ensures { IfOk result (λ d. d ≡ spec.desc_behind before (spec.integers scope.now) (desc scope.now.families t.now)) }
{
    let Desc {
        shape,
        constraint,
        initial,
    } = desc_of(alloc, t, scope.families.as_slice())?;
    let (initial, (shape, constraint)) = with(
        filled(alloc, &initial, places, &[]),
        (shape, constraint),
    )?;
    Ok(Desc {
        shape,
        constraint,
        initial,
    })
}

fn descs_behind(
    alloc: Global,
    types: &[TypeInst],
    scope: &Scope,
    before: u32,
    places: &[Term],
) -> Result<Items<Desc>, NoMemory>
    requires { places.now ≡ spec.variables (before + 1) (spec.integers scope.now) }
    ensures { IfOk result (λ ds. ds ≡ map (λ t. spec.desc_behind before (spec.integers scope.now) (desc scope.now.families t)) types.now) }
{
    let mut out = Items::new(alloc);
    for t in types {
        out.push(desc_behind(alloc, t, scope, before, places)?)?;
    }
    Ok(out)
}

impl Binding<'_> {
    /// What is put in clauses where so many variables are those of the operation.
    pub(crate) fn put(&self, alloc: Global, before: u32) -> Result<Put, NoMemory>
        ensures vars { IfOk result (λ p. p.vars ≡ spec.put_for_variables before (spec.integers self.now.scope.now) self.now.inner.now.formals) }
        ensures descs { IfOk result (λ p. p.descs ≡ spec.put_for_types self.now.scope.now before (spec.integers self.now.scope.now) self.now.inner.now.formals) }
    {
        let formals = self.inner.formals.as_slice();
        let places = places_behind(alloc, before, self.scope)?;
        let numbers = given_numbers(alloc, formals)?;
        let types = given_types(alloc, formals)?;
        let descs = descs_behind(
            alloc,
            types.as_slice(),
            self.scope,
            before,
            places.as_slice(),
        );
        let vars = put_for_variables(alloc, before, numbers.as_slice(), places.as_slice());
        let (descs, vars) = both(descs, vars)?;
        Ok(Put { vars, descs })
    }

    /// A clause, which may be missing, in which these names, and those of the formals, have a meaning.
    pub(crate) fn clause_if_there(
        &self,
        alloc: Global,
        put: &Put,
        before: u32,
        names: Items<Meaning>,
        e: &Option<Expr>,
    ) -> Result<Option<Formula>, NoMemory>
        ensures { IfOk result (λ o. o ≡ option_map (spec.clause_of put.now.vars put.now.descs self.now.inner.now.formals before names) e.now) }
    {
        match e {
            Some(e) => Ok(Some(self.clause(alloc, put, before, names, e)?)),
            None => Ok(None),
        }
    }

    fn clause(
        &self,
        alloc: Global,
        put: &Put,
        before: u32,
        names: Items<Meaning>,
        e: &Expr,
    ) -> Result<Formula, NoMemory>
        ensures { IfOk result (λ t. t ≡ spec.clause_of put.now.vars put.now.descs self.now.inner.now.formals before names e.now) }
    {
        let formals = self.inner.formals.as_slice();
        let mut names = names;
        add_numbers(alloc, &mut names, sum(before, 1)?, formals)?;
        let types = types_of(alloc, formals)?;
        let t = term_of(alloc, e, names.as_slice(), types.as_slice())?;
        filled(alloc, &t, put.vars.as_slice(), put.descs.as_slice())
    }

    /// What names mean in the requires clause of a heading.
    pub(crate) fn requires_names(
        &self,
        alloc: Global,
        heading: &Heading,
    ) -> Result<Items<Meaning>, NoMemory>
        ensures { IfOk result (λ ms. ms ≡ spec.requires_names self.now.family.now heading.now) }
    {
        let mut names = Items::new(alloc);
        self.add_parameters(alloc, &mut names, 0, heading.params.as_slice())?;
        Ok(names)
    }

    /// What names mean in the ensures clause of a heading.
    pub(crate) fn ensures_names(
        &self,
        alloc: Global,
        heading: &Heading,
    ) -> Result<Items<Meaning>, NoMemory>
        ensures { IfOk result (λ ms. ms ≡ spec.ensures_names self.now.family.now heading.now) }
    {
        let params = heading.params.as_slice();
        let mut names = Items::new(alloc);
        add_result(alloc, &mut names, result_number(heading)?, heading)?;
        self.add_parameters(alloc, &mut names, number(params.len())?, params)?;
        Ok(names)
    }

    /// The names of the parameters, of which those without `#` mean variables that stand so far behind.
    fn add_parameters(
        &self,
        alloc: Global,
        names: &mut Items<Meaning>,
        shift: u32,
        params: &[Param],
    ) -> Result<(), NoMemory>
        ensures { OnOk result (names.new ≡ names.old ++ spec.parameters self.now.family.now shift params.now) }
    {
        let mut next = 1;
        for param in params {
            let parts = parts_of(self.family, &param.ptype);
            add_name(alloc, names, false, &param.name, sum(shift, next)?, parts)?;
            add_name(alloc, names, true, &param.name, next, parts)?;
            next = sum(next, 1)?;
        }
        Ok(())
    }
}

/// The variable that is an operation's result: it is behind the incoming and the outgoing values of its parameters.
pub(crate) fn result_number(heading: &Heading) -> Result<u32, NoMemory>
    ensures { IfOk result (λ k. k ≡ spec.result_number heading.now) }
{
    let n = number(heading.params.len())?;
    sum(sum(n, n)?, 1)
}

/// The parts of the values of a type, where it is the family and has a product as its model.
fn parts_of<'f>(family: &'f Option<Family>, t: &PType) -> &'f [Name]
    ensures { result.now ≡ spec.parts_of family.now t.now }
{
    match family {
        Some(family) => {
            if is_named(t, family) {
                part_names(&family.model)
            } else {
                &[]
            }
        }
        None => &[],
    }
}

fn is_named(t: &PType, family: &Family) -> bool
    ensures { result ≡ spec.is_named t.now family.now }
{
    t.facility.is_none() && family.name.same(&t.name)
}

/// A name as a variable, with its parts.
fn add_name(
    alloc: Global,
    names: &mut Items<Meaning>,
    old: bool,
    name: &Name,
    v: u32,
    parts: &[Name],
) -> Result<(), NoMemory>
    ensures { OnOk result (names.new ≡ names.old ++ spec.name_with_parts old name.now v parts.now) }
{
    names.push(meaning(alloc, old, name, Term::Var(v))?)?;
    let mut next = 0;
    for part in parts {
        names.push(part_meaning(alloc, old, name, v, next, part)?)?;
        next = sum(next, 1)?;
    }
    Ok(())
}

fn meaning(alloc: Global, old: bool, name: &Name, term: Term) -> Result<Meaning, NoMemory>
    ensures { IfOk result (λ m. m ≡ spec.meaning old name.now None term) }
{
    let (name, term) = with(name.copy(alloc), term)?;
    Ok(Meaning {
        old,
        name,
        part: None,
        term,
    })
}

fn part_meaning(
    alloc: Global,
    old: bool,
    name: &Name,
    v: u32,
    k: u32,
    part: &Name,
) -> Result<Meaning, NoMemory>
    ensures { IfOk result (λ m. m ≡ spec.part old name.now v k part.now) }
{
    let names = both(name.copy(alloc), part.copy(alloc));
    let ((name, part), value) = both(names, boxed(alloc, Term::Var(v)))?;
    Ok(Meaning {
        old,
        name,
        part: Some(part),
        term: Term::Proj(k, value),
    })
}

/// The name of a function, as its result.
fn add_result(
    alloc: Global,
    names: &mut Items<Meaning>,
    v: u32,
    heading: &Heading,
) -> Result<(), NoMemory>
    ensures { OnOk result (names.new ≡ names.old ++ spec.result_name v heading.now) }
{
    if heading.result.is_some() {
        names.push(meaning(alloc, false, &heading.name, Term::Var(v))?)?;
    }
    Ok(())
}
