//! Which names differ.

ghost use Rattle.std.specs.Prelude.{◌≡◌, ◌++◌, ◌∷◌, [], ℕ, List, map, OnOk, IfOk};
ghost use Rattle.std.specs.List.{flat_map};
ghost use Rattle.res_ast.specs.declared.component.Component.TheVariants as component;
ghost use Rattle.type_rules.specs.Breaches.{least_of, refuse};
ghost use Rattle.type_rules.specs.Concepts.{enhancement_headings};
ghost use Rattle.type_rules.specs.Names as spec;
ghost use Rattle.type_rules.specs.working.Placed.{names_of, placed};
ghost use Rattle.type_rules.specs.working.Seen.{seen_scope};

use crate::concepts::{concept_headings, concept_in, enhancement_headings};
use crate::least::{Breach, Least};
use crate::origin::Scope;
use math_terms::{Name, NoMemory};
use module_table::Table;
use res_ast::{
    Component, Concept, FacDecl, FacilityModule, Family, Formal, Heading, LocalOp, MPart, PType,
    Param, Procedure, Realization,
};
use sqlite_items::Items;
use std::alloc::Global;
use std::marker::Model;

/// What has a name, and a place at which the name is refused.
pub(crate) trait Named {
    ghost named: { Self → List ℕ × ℕ };

    fn name(&self) -> &Name
        ensures { result.now ≡ (named self.now).0 };

    fn place(&self) -> u32
        ensures { result ≡ (named self.now).1 };
}

impl Named for Formal {
    ghost named = { λ f. (f.name, f.at) };

    fn name(&self) -> &Name {
        &self.name
    }

    fn place(&self) -> u32 {
        self.at
    }
}

impl Named for Family {
    ghost named = { λ f. (f.name, f.at) };

    fn name(&self) -> &Name {
        &self.name
    }

    fn place(&self) -> u32 {
        self.at
    }
}

impl Named for Heading {
    ghost named = { spec.heading_name };

    fn name(&self) -> &Name {
        &self.name
    }

    fn place(&self) -> u32 {
        self.at
    }
}

impl Named for FacDecl {
    ghost named = { spec.facility_name };

    fn name(&self) -> &Name {
        &self.name
    }

    fn place(&self) -> u32 {
        self.at
    }
}

impl Named for Procedure {
    ghost named = { spec.procedure_name };

    fn name(&self) -> &Name {
        &self.heading.name
    }

    fn place(&self) -> u32 {
        self.heading.at
    }
}

impl Named for LocalOp {
    ghost named = { λ l. spec.procedure_name l.procedure };

    fn name(&self) -> &Name {
        &self.procedure.heading.name
    }

    fn place(&self) -> u32 {
        self.procedure.heading.at
    }
}

impl Named for Param {
    ghost named = { λ p. (p.name, p.at) };

    fn name(&self) -> &Name {
        &self.name
    }

    fn place(&self) -> u32 {
        self.at
    }
}

impl Named for (Name, PType) {
    ghost named = { spec.typed_name };

    fn name(&self) -> &Name {
        &self.0
    }

    fn place(&self) -> u32 {
        self.1.at
    }
}

/// Names that are there, in the order in which they came.
#[derive(Drop)]
struct Names<'c> {
    names: Items<&'c Name>,
}

impl<'c> Model for Names<'c> {
    ghost use Rattle.std.specs.Prelude.{ℕ, List, map};

    ghost Value = { List (List ℕ) };

    ghost view = { λ n. map (λ name. name.now) n.names };
}

impl<'c> Names<'c> {
    fn new(alloc: Global) -> Names<'c>
        ensures { result ≡ [] }
    {
        Names {
            names: Items::new(alloc),
        }
    }

    fn has(&self, name: &Name) -> bool
        ensures { result ≡ spec.is_among name.now self.now }
    {
        for own in self.names.as_slice() {
            if name.same(own) {
                return true;
            }
        }
        false
    }

    fn add(&mut self, name: &'c Name) -> Result<(), NoMemory>
        ensures { OnOk result (self.new ≡ self.old ++ name.now ∷ []) }
    {
        self.names.push(name)?;
        Ok(())
    }

    fn add_all<T: Named>(&mut self, items: &'c [T]) -> Result<(), NoMemory>
        ensures { OnOk result (self.new ≡ self.old ++ map (λ x. (T.named x).0) items.now) }
    {
        for item in items {
            self.add(item.name())?;
        }
        Ok(())
    }

    // Adds a name, which is refused at the place where it is there.
    fn declare(&mut self, name: &'c Name, at: u32, least: &mut Least<'c>) -> Result<(), NoMemory>
        ensures { OnOk result ((self.new ≡ self.old ++ name.now ∷ []) × (least.new ≡ least_of least.old (spec.repeated self.old ((name.now, at) ∷ [])))) }
    {
        least.note_if(self.has(name), Breach::OfType { at });
        self.add(name)
    }

    fn declare_all<T: Named>(
        &mut self,
        items: &'c [T],
        least: &mut Least<'c>,
    ) -> Result<(), NoMemory>
        ensures { OnOk result ((self.new ≡ self.old ++ names_of (map T.named items.now)) × (least.new ≡ least_of least.old (spec.repeated self.old (map T.named items.now)))) }
    {
        for item in items {
            self.declare(item.name(), item.place(), least)?;
        }
        Ok(())
    }

    fn declare_family(
        &mut self,
        family: &'c Option<Family>,
        least: &mut Least<'c>,
    ) -> Result<(), NoMemory>
        ensures { OnOk result ((self.new ≡ self.old ++ names_of (spec.family_name family.now)) × (least.new ≡ least_of least.old (spec.repeated self.old (spec.family_name family.now)))) }
    {
        match family {
            Some(family) => self.declare(&family.name, family.at, least),
            None => Ok(()),
        }
    }

    fn declare_concept(&mut self, own: &'c Concept, least: &mut Least<'c>) -> Result<(), NoMemory>
        ensures { OnOk result (least.new ≡ least_of least.old (spec.repeated self.old (spec.declared (component.Concept own.now)))) }
    {
        self.declare_all(own.formals.as_slice(), least)?;
        self.declare_family(&own.family, least)?;
        self.declare_all(own.headings.as_slice(), least)?;
        Ok(())
    }

    #[tactic(auto, using(crate::proofs::Repeated::least_of_repeated, crate::proofs::Repeated::procedure_names))]
    fn declare_realization(
        &mut self,
        own: &'c Realization,
        least: &mut Least<'c>,
    ) -> Result<(), NoMemory>
        ensures { OnOk result (least.new ≡ least_of least.old (spec.repeated self.old (spec.declared (component.Realization own.now)))) }
    {
        self.declare_all(own.facilities.as_slice(), least)?;
        self.declare_all(own.locals.as_slice(), least)?;
        self.declare_all(own.procs.as_slice(), least)?;
        Ok(())
    }

    #[tactic(auto, using(crate::proofs::Repeated::least_of_repeated, crate::proofs::Repeated::local_names))]
    fn declare_module(
        &mut self,
        own: &'c FacilityModule,
        least: &mut Least<'c>,
    ) -> Result<(), NoMemory>
        ensures { OnOk result (least.new ≡ least_of least.old (spec.repeated self.old (spec.declared (component.Facility own.now)))) }
    {
        self.declare_all(own.facilities.as_slice(), least)?;
        self.declare_all(own.operations.as_slice(), least)?;
        Ok(())
    }

    // Headings that are refused at another place than their own.
    fn declare_given(
        &mut self,
        headings: &'c [Heading],
        at: u32,
        least: &mut Least<'c>,
    ) -> Result<(), NoMemory>
        ensures { OnOk result ((self.new ≡ self.old ++ names_of (placed at headings.now)) × (least.new ≡ least_of least.old (spec.repeated self.old (placed at headings.now)))) }
    {
        for heading in headings {
            self.declare(&heading.name, at, least)?;
        }
        Ok(())
    }

    fn declare_parts(
        &mut self,
        parts: &'c [Name],
        at: u32,
        least: &mut Least<'c>,
    ) -> Result<(), NoMemory>
        ensures { OnOk result (least.new ≡ least_of least.old (spec.repeated self.old (map (λ n. (n, at)) parts.now))) }
    {
        for part in parts {
            self.declare(part, at, least)?;
        }
        Ok(())
    }

    fn declare_enhanced(
        &mut self,
        table: &'c Table,
        pairs: &'c [(Name, Name)],
        at: u32,
        least: &mut Least<'c>,
    ) -> Result<(), NoMemory>
        ensures { OnOk result (least.new ≡ least_of least.old (spec.repeated self.old (placed at (flat_map (λ p. enhancement_headings table.now p.0) pairs.now)))) }
    {
        for (enhancement, _) in pairs {
            self.declare_given(enhancement_headings(table, enhancement), at, least)?;
        }
        Ok(())
    }

    fn add_family(&mut self, family: &'c Option<Family>) -> Result<(), NoMemory>
        ensures { OnOk result (self.new ≡ self.old ++ names_of (spec.family_name family.now)) }
    {
        match family {
            Some(family) => self.add(&family.name),
            None => Ok(()),
        }
    }

    // The name of a function; an operation's may be a variable's too.
    fn add_function(&mut self, heading: &'c Heading) -> Result<(), NoMemory>
        ensures { OnOk result (self.new ≡ self.old ++ spec.function_name heading.now) }
    {
        if heading.result.is_some() {
            self.add(&heading.name)?;
        }
        Ok(())
    }

    fn add_types(&mut self, table: &'c Table, concept: &Name) -> Result<(), NoMemory>
        ensures { OnOk result (self.new ≡ self.old ++ spec.types_of table.now concept.now) }
    {
        if let Some(concept) = concept_in(table, concept) {
            self.add_all(concept.formals.as_slice())?;
            self.add_family(&concept.family)?;
        }
        Ok(())
    }

    fn add_operations(&mut self, table: &'c Table, own: &Realization) -> Result<(), NoMemory>
        ensures { OnOk result (self.new ≡ self.old ++ spec.operations_seen table.now own.now) }
    {
        if own.enhancement.is_some() {
            self.add_all(concept_headings(table, &own.concept))?;
        }
        Ok(())
    }
}

// The names that a component sees by themselves, and does not declare.
fn seen_by<'c>(
    alloc: Global,
    table: &'c Table,
    component: &'c Component,
) -> Result<Names<'c>, NoMemory>
    ensures { IfOk result (λ names. names ≡ spec.seen table.now component.now) }
{
    let mut names = Names::new(alloc);
    match component {
        Component::Concept(_) => {}
        Component::Enhancement(own) => names.add_types(table, &own.concept)?,
        Component::Realization(own) => {
            names.add_types(table, &own.concept)?;
            names.add_operations(table, own)?;
        }
        Component::Facility(_) => {}
    }
    Ok(names)
}

/// Notes what a component declares by a name that it declares or sees already.
pub(crate) fn note_declared_twice<'c>(
    alloc: Global,
    table: &'c Table,
    component: &'c Component,
    least: &mut Least<'c>,
) -> Result<(), NoMemory>
    ensures { OnOk result (least.new ≡ least_of least.old (spec.declared_twice table.now component.now)) }
{
    let mut names = seen_by(alloc, table, component)?;
    match component {
        Component::Concept(own) => names.declare_concept(own, least),
        Component::Enhancement(own) => names.declare_all(own.headings.as_slice(), least),
        Component::Realization(own) => names.declare_realization(own, least),
        Component::Facility(own) => names.declare_module(own, least),
    }
}

/// Notes operations of one name that a facility gives.
pub(crate) fn note_given_twice<'c>(
    alloc: Global,
    table: &'c Table,
    facility: &'c FacDecl,
    least: &mut Least<'c>,
) -> Result<(), NoMemory>
    ensures { OnOk result (least.new ≡ least_of least.old (spec.given_twice table.now facility.now)) }
{
    let mut names = Names::new(alloc);
    names.declare_given(
        concept_headings(table, &facility.concept),
        facility.at,
        least,
    )?;
    names.declare_enhanced(table, facility.enhanced.as_slice(), facility.at, least)?;
    Ok(())
}

/// Notes fields of one name in a record.
pub(crate) fn note_fields_twice<'c>(
    alloc: Global,
    fields: &'c [(Name, PType)],
    least: &mut Least<'c>,
) -> Result<(), NoMemory>
    ensures { OnOk result (least.new ≡ least_of least.old (spec.fields_twice fields.now)) }
{
    Names::new(alloc).declare_all(fields, least)
}

/// Notes parts of one name in a product, at this place.
pub(crate) fn note_parts_twice<'c>(
    alloc: Global,
    at: u32,
    part: &'c MPart,
    least: &mut Least<'c>,
) -> Result<(), NoMemory>
    ensures { OnOk result (least.new ≡ least_of least.old (spec.parts_twice at part.now)) }
{
    match part {
        MPart::Prod(names) => Names::new(alloc).declare_parts(names.as_slice(), at, least),
        _ => Ok(()),
    }
}

/// Notes parameters and variables of one name, or of the name of a formal, of a facility or of their function.
#[tactic(auto, using(crate::proofs::Repeated::least_of_repeated))]
pub(crate) fn note_variables_twice<'c>(
    alloc: Global,
    scope: &Scope<'c>,
    heading: &'c Heading,
    variables: &'c [(Name, PType)],
    least: &mut Least<'c>,
) -> Result<(), NoMemory>
    ensures { OnOk result (least.new ≡ least_of least.old (spec.variables_twice (seen_scope scope.now) heading.now variables.now)) }
{
    let mut names = Names::new(alloc);
    names.add_all(scope.formals)?;
    names.add_all(scope.facilities)?;
    names.add_function(heading)?;
    names.declare_all(heading.params.as_slice(), least)?;
    names.declare_all(variables, least)
}
