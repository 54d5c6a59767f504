//! The names of other components that a component has in its text.

ghost use Rattle.std.specs.Prelude.{◌≡◌, ◌++◌, ◌∷◌, [], false, map, IfOk, OnOk};
ghost use Rattle.std.specs.Option.{option_map_or};
ghost use Rattle.std.specs.List.{flat_map};
ghost use Rattle.std.specs.Str.{bytes_eq};
ghost use Rattle.module_table.specs.Slots as spec;
ghost use Rattle.module_table.specs.working.Seen.{seen, seen_asked};

use math_terms::{Name, NoMemory};
use res_ast::{Component, FacDecl, Realization};
use sqlite_items::Items;
use std::alloc::Global;

/// What a component is to be at a slot: anything, a concept, an enhancement for that concept, a realization for that concept and
/// of no enhancement, or a realization of that enhancement for that concept.
#[derive(Clone, Copy)]
pub(crate) enum Asked<'c> {
    Anything,
    Concept,
    Enhancement(&'c Name),
    Realization(&'c Name),
    RealizationOf(&'c Name, &'c Name),
}

/// A name in the text, and the place at which it is refused.
#[derive(Clone, Copy)]
pub(crate) struct Slot<'c> {
    pub name: &'c Name,
    pub at: u32,
    pub asked: Asked<'c>,
}

impl<'c> Asked<'c> {
    // Whether more is asked than that there is a component.
    pub(crate) fn asks_a_kind(&self) -> bool
        ensures { result ≡ spec.asks_a_kind (seen_asked self.now) }
    {
        match self {
            Asked::Anything => false,
            _ => true,
        }
    }

    // Whether a component is what is asked for.
    pub(crate) fn suits(&self, component: &Component) -> bool
        ensures { result ≡ spec.suits (seen_asked self.now) component.now }
    {
        match self {
            Asked::Anything => true,
            Asked::Concept => matches!(component, Component::Concept(_)),
            Asked::Enhancement(concept) => match component {
                Component::Enhancement(own) => concept.same(&own.concept),
                _ => false,
            },
            Asked::Realization(concept) => match component {
                Component::Realization(own) => {
                    own.enhancement.is_none() && concept.same(&own.concept)
                }
                _ => false,
            },
            Asked::RealizationOf(enhancement, concept) => match component {
                Component::Realization(own) => {
                    is_of(own, enhancement) && concept.same(&own.concept)
                }
                _ => false,
            },
        }
    }
}

// Whether a realization is one of this enhancement.
fn is_of(realization: &Realization, enhancement: &Name) -> bool
    ensures { result ≡ option_map_or (bytes_eq enhancement.now) realization.now.enhancement false }
{
    match &realization.enhancement {
        Some(own) => enhancement.same(own),
        None => false,
    }
}

/// The slots of a component, in the order of its text.
pub(crate) fn slots_of<'c>(
    alloc: Global,
    component: &'c Component,
) -> Result<Items<Slot<'c>>, NoMemory>
    ensures { IfOk result (λ slots. map seen slots ≡ spec.slots component.now) }
{
    let mut slots = Items::new(alloc);
    match component {
        Component::Concept(own) => add_used(&mut slots, own.at, own.uses.as_slice())?,
        Component::Enhancement(own) => {
            add(&mut slots, &own.concept, own.at, Asked::Concept)?;
            add_used(&mut slots, own.at, own.uses.as_slice())?;
        }
        Component::Realization(own) => {
            add_header(&mut slots, own)?;
            add_used(&mut slots, own.at, own.uses.as_slice())?;
            add_declarations(&mut slots, own.facilities.as_slice())?;
        }
        Component::Facility(own) => {
            add_used(&mut slots, own.at, own.uses.as_slice())?;
            add_declarations(&mut slots, own.facilities.as_slice())?;
        }
    }
    Ok(slots)
}

fn add<'c>(
    slots: &mut Items<Slot<'c>>,
    name: &'c Name,
    at: u32,
    asked: Asked<'c>,
) -> Result<(), NoMemory>
    ensures { OnOk result (map seen slots.new ≡ map seen slots.old ++ spec.slot name.now at (seen_asked asked.entry) ∷ []) }
{
    slots.push(Slot { name, at, asked })?;
    Ok(())
}

// The enhancement and the concept that a realization is of.
fn add_header<'c>(slots: &mut Items<Slot<'c>>, own: &'c Realization) -> Result<(), NoMemory>
    ensures { OnOk result (map seen slots.new ≡ map seen slots.old ++ spec.headed own.now) }
{
    if let Some(enhancement) = &own.enhancement {
        add(slots, enhancement, own.at, Asked::Enhancement(&own.concept))?;
    }
    add(slots, &own.concept, own.at, Asked::Concept)
}

// The names after `uses`.
fn add_used<'c>(slots: &mut Items<Slot<'c>>, at: u32, names: &'c [Name]) -> Result<(), NoMemory>
    ensures { OnOk result (map seen slots.new ≡ map seen slots.old ++ map (spec.used at) names.now) }
{
    for name in names {
        add(slots, name, at, Asked::Anything)?;
    }
    Ok(())
}

fn add_declarations<'c>(
    slots: &mut Items<Slot<'c>>,
    declarations: &'c [FacDecl],
) -> Result<(), NoMemory>
    ensures { OnOk result (map seen slots.new ≡ map seen slots.old ++ flat_map spec.declared declarations.now) }
{
    for declaration in declarations {
        add_declaration(slots, declaration)?;
    }
    Ok(())
}

// The concept of a declaration, its realization, and its enhancements with theirs.
fn add_declaration<'c>(slots: &mut Items<Slot<'c>>, own: &'c FacDecl) -> Result<(), NoMemory>
    ensures { OnOk result (map seen slots.new ≡ map seen slots.old ++ spec.declared own.now) }
{
    add(slots, &own.concept, own.at, Asked::Concept)?;
    if let Some(realization) = &own.realization {
        add(slots, realization, own.at, Asked::Realization(&own.concept))?;
    }
    add_enhanced(slots, own, own.enhanced.as_slice())
}

fn add_enhanced<'c>(
    slots: &mut Items<Slot<'c>>,
    own: &'c FacDecl,
    pairs: &'c [(Name, Name)],
) -> Result<(), NoMemory>
    ensures { OnOk result (map seen slots.new ≡ map seen slots.old ++ flat_map (spec.enhanced own.now) pairs.now) }
{
    for (enhancement, realization) in pairs {
        add(slots, enhancement, own.at, Asked::Enhancement(&own.concept))?;
        let asked = Asked::RealizationOf(enhancement, &own.concept);
        add(slots, realization, own.at, asked)?;
    }
    Ok(())
}
