//! Operations as a caller sees them.

ghost use Rattle.std.specs.Prelude.{◌≡◌, ◌<◌, List, [], ◌∷◌, Some, IfSome, false, length, slice_get};
ghost use Rattle.std.specs.List.{position};
ghost use Rattle.std.specs.Option.{option_copied, option_map, option_map_or};
ghost use Rattle.std.specs.Str.{bytes_eq};
ghost use Rattle.type_modes.specs.Calls as call;
ghost use Rattle.type_modes.specs.Calls.{Look};
ghost use Rattle.type_modes.specs.Signatures as spec;
ghost use Rattle.type_modes.specs.working.Found as found;
ghost use Rattle.type_modes.specs.working.Seen.{seen_callee, seen_kind, seen_param};
ghost use Rattle.type_rules.specs.Concepts.{procedures};
ghost use Rattle.type_rules.specs.working.Seen.{seen_origin, seen_scope};

use math_terms::Name;
use module_table::{Table, is_array_template};
use res_ast::{Component, Concept, FacArg, FacDecl, Heading, Mode, PType, Procedure, Realization};
use type_rules::{
    Origin, Scope, asked_of, concept_in, declarations_of, enhancement_headings, heading_named,
    is_main, own_concept, scope_of,
};

const READ: &[u8] = b"Read";

const WRITE: &[u8] = b"Write";

const AT_END: &[u8] = b"At_End";

const REMAINING: &[u8] = b"Remaining";

const SWAP_ENTRY: &[u8] = b"Swap_Entry";

/// What is called: an operation that is there without a declaration, the operation of an array facility, one through a facility,
/// one of the own concept or enhancement, or an own one.
#[derive(Clone, Copy)]
pub(crate) enum Kind<'c> {
    Read,
    Write,
    AtEnd,
    Remaining,
    Entry {
        scope: Scope<'c>,
        declaration: &'c FacDecl,
    },
    Through {
        scope: Scope<'c>,
        declaration: &'c FacDecl,
        concept: &'c Concept,
        heading: &'c Heading,
    },
    Within {
        scope: Scope<'c>,
        concept: &'c Concept,
        heading: &'c Heading,
    },
    Own {
        scope: Scope<'c>,
        heading: &'c Heading,
    },
}

/// An operation that is called, and whether it may be called there.
#[derive(Clone, Copy)]
pub(crate) struct Callee<'c> {
    pub(crate) kind: Kind<'c>,
    pub(crate) in_order: bool,
}

/// A parameter as a caller sees it; a type that is not known is none.
#[derive(Clone, Copy)]
pub(crate) struct Wanted<'c> {
    pub(crate) mode: Mode,
    pub(crate) origin: Option<Origin<'c>>,
}

impl<'c> Wanted<'c> {
    fn of(mode: Mode, origin: Origin<'c>) -> Wanted<'c>
        ensures { seen_param result ≡ (mode, Some (seen_origin origin.entry)) }
    {
        Wanted {
            mode,
            origin: Some(origin),
        }
    }
}

// The first or the second parameter, by its number from 0.
fn one_of<'c>(first: Wanted<'c>, second: Wanted<'c>, index: usize) -> Option<Wanted<'c>>
    ensures { option_map seen_param result ≡ slice_get (seen_param first.entry ∷ seen_param second.entry ∷ []) index }
{
    match index {
        0 => Some(first),
        1 => Some(second),
        _ => None,
    }
}

// The input, as the only parameter, by its number from 0.
fn input<'c>(index: usize) -> Option<Wanted<'c>>
    ensures { option_map seen_param result ≡ slice_get spec.at_end.params index }
{
    match index {
        0 => Some(Wanted::of(Mode::Preserves, Origin::In)),
        _ => None,
    }
}

// The type of an argument of a facility.
fn argument<'c>(scope: Scope<'c>, arg: &'c FacArg) -> Option<Origin<'c>>
    ensures { option_map seen_origin result ≡ spec.argument scope.entry.table.now (seen_scope scope.entry) arg.now }
{
    match arg {
        FacArg::OfType(ptype) => scope.origin(ptype),
        FacArg::Number(_, _) => None,
    }
}

// The type of the entries of an array facility with these arguments.
fn entry_type<'c>(scope: Scope<'c>, args: &'c [FacArg]) -> Option<Origin<'c>>
    ensures { option_map seen_origin result ≡ spec.entry scope.entry.table.now (seen_scope scope.entry) args.now }
{
    argument(scope, args.first()?)
}

// What a declaration gives for the first formal of a name.
fn given<'c>(
    scope: Scope<'c>,
    declaration: &'c FacDecl,
    concept: &'c Concept,
    name: &Name,
) -> Option<Origin<'c>>
    ensures { option_map seen_origin result ≡ spec.given scope.entry.table.now (seen_scope scope.entry) declaration.now concept.now name.now }
{
    let formals = concept.formals.as_slice();
    let args = declaration.args.as_slice();
    let count = formals.len().min(args.len());
    for k in 0..count {
        if name.same(&formals[k].name) {
            return argument(scope, &args[k]);
        }
    }
    None
}

// The type of a heading of a concept, seen from the concept.
fn inside<'c>(table: &'c Table, concept: &'c Concept, ptype: &'c PType) -> Option<Origin<'c>>
    ensures { option_map seen_origin result ≡ spec.inside concept.now ptype.now }
{
    if ptype.facility.is_some() {
        return None;
    }
    Scope::behind(table, Some(concept), &[]).origin_alone(&ptype.name)
}

fn through<'c>(
    scope: Scope<'c>,
    declaration: &'c FacDecl,
    concept: &'c Concept,
    ptype: &'c PType,
) -> Option<Origin<'c>>
    ensures { option_map seen_origin result ≡ spec.through scope.entry.table.now (seen_scope scope.entry) declaration.now concept.now ptype.now }
{
    match inside(scope.table, concept, ptype) {
        None => Some(Origin::Integer),
        Some(Origin::Formal(name)) => given(scope, declaration, concept, name),
        Some(Origin::Own) => Some(Origin::Of(&declaration.name)),
        Some(origin) => Some(origin),
    }
}

fn within<'c>(table: &'c Table, concept: &'c Concept, ptype: &'c PType) -> Option<Origin<'c>>
    ensures { option_map seen_origin result ≡ spec.within concept.now ptype.now }
{
    match inside(table, concept, ptype) {
        None => Some(Origin::Integer),
        Some(origin) => Some(origin),
    }
}

impl<'c> Kind<'c> {
    // The heading, where the operation has one.
    fn heading(&self) -> Option<&'c Heading>
        ensures { option_copied result ≡ found.heading_of self.now }
    {
        match self {
            Kind::Through { heading, .. } => Some(heading),
            Kind::Within { heading, .. } => Some(heading),
            Kind::Own { heading, .. } => Some(heading),
            _ => None,
        }
    }

    // What a type of the heading is to the caller.
    fn type_of(&self, ptype: &'c PType) -> Option<Origin<'c>>
        ensures { option_map seen_origin result ≡ found.type_of self.now ptype.now }
    {
        match self {
            Kind::Through {
                scope,
                declaration,
                concept,
                ..
            } => through(*scope, declaration, concept, ptype),
            Kind::Within { scope, concept, .. } => within(scope.table, concept, ptype),
            Kind::Own { scope, .. } => scope.origin(ptype),
            _ => None,
        }
    }

    /// How many parameters there are.
    pub(crate) fn count(&self) -> usize
        ensures { result ≡ length (seen_kind self.now).params }
    {
        match self {
            Kind::Read | Kind::Write => 2,
            Kind::AtEnd | Kind::Remaining => 1,
            Kind::Entry { .. } => 3,
            Kind::Through { heading, .. } => heading.params.len(),
            Kind::Within { heading, .. } => heading.params.len(),
            Kind::Own { heading, .. } => heading.params.len(),
        }
    }

    fn entry(scope: Scope<'c>, declaration: &'c FacDecl, index: usize) -> Option<Wanted<'c>>
        ensures { option_map seen_param result ≡ slice_get (spec.swap_entry scope.entry.table.now (seen_scope scope.entry) declaration.now).params index }
    {
        match index {
            0 => Some(Wanted::of(Mode::Updates, Origin::Of(&declaration.name))),
            1 => Some(Wanted {
                mode: Mode::Updates,
                origin: entry_type(scope, declaration.args.as_slice()),
            }),
            2 => Some(Wanted::of(Mode::Evaluates, Origin::Integer)),
            _ => None,
        }
    }

    // The parameter of that number, from 0, of an operation with a heading.
    fn declared(&self, heading: &'c Heading, index: usize) -> Option<Wanted<'c>>
        ensures { option_map seen_param result ≡ slice_get (spec.signature (found.type_of self.now) heading.now).params index }
    {
        let param = heading.params.get(index)?;
        Some(Wanted {
            mode: param.mode,
            origin: self.type_of(&param.ptype),
        })
    }

    /// The parameter of that number, from 0.
    pub(crate) fn param(&self, index: usize) -> Option<Wanted<'c>>
        ensures { option_map seen_param result ≡ slice_get (seen_kind self.now).params index }
    {
        match self {
            Kind::Read => one_of(
                Wanted::of(Mode::Replaces, Origin::Integer),
                Wanted::of(Mode::Updates, Origin::In),
                index,
            ),
            Kind::Write => one_of(
                Wanted::of(Mode::Evaluates, Origin::Integer),
                Wanted::of(Mode::Updates, Origin::Out),
                index,
            ),
            Kind::AtEnd | Kind::Remaining => input(index),
            Kind::Entry { scope, declaration } => Kind::entry(*scope, declaration, index),
            Kind::Through { heading, .. } => self.declared(heading, index),
            Kind::Within { heading, .. } => self.declared(heading, index),
            Kind::Own { heading, .. } => self.declared(heading, index),
        }
    }

    /// The type that a function answers.
    pub(crate) fn result(&self) -> Option<Origin<'c>>
        ensures { option_map seen_origin result ≡ (seen_kind self.now).result }
    {
        match self {
            Kind::AtEnd => Some(Origin::Boolean),
            Kind::Remaining => Some(Origin::Integer),
            _ => {
                let ptype = self.heading()?.result.as_ref()?;
                match self.type_of(ptype) {
                    Some(origin) => Some(origin),
                    None => Some(Origin::Integer),
                }
            }
        }
    }
}

// The first heading of a name that a facility of a concept gives.
fn given_heading<'c>(
    table: &'c Table,
    declaration: &'c FacDecl,
    concept: &'c Concept,
    name: &Name,
) -> Option<&'c Heading>
    ensures { option_copied result ≡ found.given_heading table.now declaration.now concept.now name.now }
{
    if let Some(heading) = heading_named(concept.headings.as_slice(), name) {
        return Some(heading);
    }
    for (enhancement, _) in declaration.enhanced.as_slice() {
        if let Some(heading) = heading_named(enhancement_headings(table, enhancement), name) {
            return Some(heading);
        }
    }
    None
}

// The operation of a name that a facility gives, whose arguments are seen from this scope.
#[tactic(auto, unfolding(crate::specs::Signatures::is_swap_entry))]
fn facility_operation<'c>(
    scope: Scope<'c>,
    declaration: &'c FacDecl,
    name: &Name,
) -> Option<Kind<'c>>
    ensures { option_map seen_kind result ≡ spec.facility_signature scope.entry.table.now (seen_scope scope.entry) declaration.now name.now }
{
    if is_array_template(&declaration.concept) {
        if name.bytes() == SWAP_ENTRY {
            return Some(Kind::Entry { scope, declaration });
        }
        return None;
    }
    let concept = concept_in(scope.table, &declaration.concept)?;
    let heading = given_heading(scope.table, declaration, concept, name)?;
    Some(Kind::Through {
        scope,
        declaration,
        concept,
        heading,
    })
}

// The number of the first declaration of a name.
fn number_declared(declarations: &[FacDecl], name: &Name) -> Option<usize>
    ensures value { result ≡ position (λ d. bytes_eq name.now d.name) declarations.now }
    ensures within { IfSome result (λ k. k < length declarations.now) }
{
    declarations
        .iter()
        .position(|declaration| name.same(&declaration.name))
}

// The operation of a name through the first facility of a name.
fn behind_facility<'c>(
    table: &'c Table,
    component: &'c Component,
    facility: &Name,
    name: &Name,
) -> Option<Callee<'c>>
    ensures { option_map seen_callee result ≡ spec.behind_facility table.now component.now facility.now name.now }
{
    let declarations = declarations_of(component);
    let index = number_declared(declarations, facility)?;
    let scope = Scope::behind(table, own_concept(table, component), &declarations[..index]);
    let kind = facility_operation(scope, &declarations[index], name)?;
    Some(Callee {
        kind,
        in_order: true,
    })
}

#[tactic(auto, unfolding(crate::specs::Signatures::built_in))]
fn built_in<'c>(name: &Name) -> Option<Kind<'c>>
    ensures { option_map seen_kind result ≡ spec.built_in name.now }
{
    let bytes = name.bytes();
    if bytes == READ {
        Some(Kind::Read)
    } else if bytes == WRITE {
        Some(Kind::Write)
    } else if bytes == AT_END {
        Some(Kind::AtEnd)
    } else if bytes == REMAINING {
        Some(Kind::Remaining)
    } else {
        None
    }
}

// The operation of a name among headings of the specification that a realization is of.
fn specified<'c>(
    table: &'c Table,
    own: &'c Realization,
    headings: &'c [Heading],
    name: &Name,
) -> Option<Kind<'c>>
    ensures { option_map seen_kind result ≡ spec.specified table.now own.now headings.now name.now }
{
    let concept = concept_in(table, &own.concept)?;
    let heading = heading_named(headings, name)?;
    Some(Kind::Within {
        scope: Scope::behind(table, Some(concept), &[]),
        concept,
        heading,
    })
}

// The operation of a name of the own specification, and in a realization of an enhancement of the concept.
fn of_specification<'c>(
    table: &'c Table,
    component: &'c Component,
    name: &Name,
) -> Option<Callee<'c>>
    ensures { option_map seen_callee result ≡ spec.of_specification table.now component.now name.now }
{
    let Component::Realization(own) = component else {
        return None;
    };
    if let Some(kind) = specified(table, own, asked_of(table, own), name) {
        return Some(Callee {
            kind,
            in_order: false,
        });
    }
    if own.enhancement.is_none() {
        return None;
    }
    let concept = concept_in(table, &own.concept)?;
    let kind = specified(table, own, concept.headings.as_slice(), name)?;
    Some(Callee {
        kind,
        in_order: true,
    })
}

/// The procedures of a component: how many, and that of a number, from 0, in the order of the text.
pub(crate) fn procedure_count(component: &Component) -> usize
    ensures { result ≡ length (procedures component.now) }
{
    match component {
        Component::Realization(own) => own.locals.as_slice().len() + own.procs.as_slice().len(),
        Component::Facility(own) => own.operations.len(),
        _ => 0,
    }
}

pub(crate) fn procedure_at(component: &Component, number: usize) -> Option<&Procedure>
    ensures { option_copied result ≡ slice_get (procedures component.now) number }
{
    match component {
        Component::Realization(own) => match own.locals.get(number) {
            Some(local) => Some(&local.procedure),
            None => own.procs.get(number - own.locals.len()),
        },
        Component::Facility(own) => match own.operations.get(number) {
            Some(local) => Some(&local.procedure),
            None => None,
        },
        _ => None,
    }
}

// Whether the procedure of number `caller` may call that of number `own`.
fn may_call(component: &Component, caller: usize, own: usize, procedure: &Procedure) -> bool
    ensures { result ≡ spec.may_call component.now caller procedure.now own }
{
    let is_first = matches!(component, Component::Facility(_)) && is_main(&procedure.heading.name);
    (own < caller || (own == caller && procedure.metric.is_some())) && !is_first
}

// Whether the procedure of a number has a name.
fn is_named(component: &Component, number: usize, name: &Name) -> bool
    ensures { result ≡ option_map_or (λ p. bytes_eq name.now p.heading.name) (slice_get (procedures component.now) number) false }
{
    match procedure_at(component, number) {
        Some(procedure) => name.same(&procedure.heading.name),
        None => false,
    }
}

// The number of the first own operation of a name.
fn number_of(component: &Component, name: &Name) -> Option<usize>
    ensures { result ≡ position (λ p. bytes_eq name.now p.heading.name) (procedures component.now) }
{
    for k in 0..procedure_count(component) {
        if is_named(component, k, name) {
            return Some(k);
        }
    }
    None
}

// The first own operation of a name.
fn own_operation<'c>(
    table: &'c Table,
    component: &'c Component,
    caller: usize,
    name: &Name,
) -> Option<Callee<'c>>
    ensures { option_map seen_callee result ≡ spec.own_operation table.now component.now caller name.now }
{
    let number = number_of(component, name)?;
    let procedure = procedure_at(component, number)?;
    Some(Callee {
        kind: Kind::Own {
            scope: scope_of(table, component),
            heading: &procedure.heading,
        },
        in_order: may_call(component, caller, number, procedure),
    })
}

/// The operation that a name means in the procedure of a number, from 0, by itself or behind the name of a facility.
pub(crate) fn called<'c>(
    table: &'c Table,
    component: &'c Component,
    caller: usize,
    facility: &Option<Name>,
    name: &Name,
) -> Option<Callee<'c>>
    ensures { option_map seen_callee result ≡ spec.operation table.now component.now caller facility.now name.now }
{
    if let Some(facility) = facility {
        return behind_facility(table, component, facility, name);
    }
    if let Some(kind) = built_in(name) {
        return Some(Callee {
            kind,
            in_order: true,
        });
    }
    match of_specification(table, component, name) {
        Some(callee) => Some(callee),
        None => own_operation(table, component, caller, name),
    }
}

impl<'c> Callee<'c> {
    /// Whether it may be called with so many arguments, where a value is wanted or an operation.
    pub(crate) fn fits(&self, wants_value: bool, count: usize) -> bool
        ensures { (args : List Look) → length args ≡ count → result ≡ call.fits wants_value (seen_callee self.now) args }
    {
        wants_value == self.kind.result().is_some() && count == self.kind.count()
    }

    /// The type of the value, where the call is not refused itself.
    pub(crate) fn answer(&self, count: usize) -> Option<Origin<'c>>
        ensures { (args : List Look) → length args ≡ count → option_map seen_origin result ≡ call.answer (Some (seen_callee self.now)) args }
    {
        if self.fits(true, count) && self.in_order {
            self.kind.result()
        } else {
            None
        }
    }
}
