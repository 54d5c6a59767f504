//! Whom a component names.

ghost use Rattle.std.specs.Prelude.{◌≡◌, ◌⊎◌, map, None, Some, Ok, Err, IfOk, OnOk, MatchResult};
ghost use Rattle.std.specs.List.{list_any};
ghost use Rattle.std.specs.Str.{bytes_eq};
ghost use Rattle.module_table.specs.Slots as spec;
ghost use Rattle.module_table.specs.working.Seen.{seen};

use crate::error::NameError;
use crate::slots::{Slot, slots_of};
use crate::table::{Table, is_array_template};
use math_terms::{Name, NoMemory};
use res_ast::Component;
use sqlite_items::Items;
use std::alloc::Global;

impl Table {
    /// The concepts and enhancements that the component of this name names, and the realizations in its declarations of
    /// facilities, each once and in the order of the text, or the first name that is not held or is of another kind than its
    /// place asks for. A name that is not held names none.
    pub fn uses_of(&self, alloc: Global, name: &Name) -> Result<Items<Name>, NameError>
        ensures { MatchResult result (λ names. spec.uses_of self.now name.now ≡ Ok names) (λ e. (e ≡ NameError.NoMemory) ⊎ (spec.uses_of self.now name.now ≡ Err e)) }
    {
        match self.find(name) {
            Some(component) => self.uses_in(alloc, component),
            None => Ok(Items::new(alloc)),
        }
    }

    // The same of a component.
    fn uses_in(&self, alloc: Global, component: &Component) -> Result<Items<Name>, NameError>
        ensures { MatchResult result (λ names. spec.uses_in self.now component.now ≡ Ok names) (λ e. (e ≡ NameError.NoMemory) ⊎ (spec.uses_in self.now component.now ≡ Err e)) }
    {
        let slots = slots_of(alloc, component)?;
        self.check_all(alloc, slots.as_slice())?;
        Ok(listed(alloc, slots.as_slice())?)
    }

    // Refuses the first breach.
    fn check_all(&self, alloc: Global, slots: &[Slot<'_>]) -> Result<(), NameError>
        ensures { MatchResult result (λ _. spec.first_breach self.now (map seen slots.now) ≡ None) (λ e. (e ≡ NameError.NoMemory) ⊎ (spec.first_breach self.now (map seen slots.now) ≡ Some e)) }
    {
        for slot in slots {
            self.check(alloc, slot)?;
        }
        Ok(())
    }

    // Refuses the name of a slot that has a breach.
    fn check(&self, alloc: Global, slot: &Slot<'_>) -> Result<(), NameError>
        ensures { MatchResult result (λ _. spec.breach self.now (seen slot.now) ≡ None) (λ e. (e ≡ NameError.NoMemory) ⊎ (spec.breach self.now (seen slot.now) ≡ Some e)) }
    {
        if is_array_template(slot.name) {
            return Ok(());
        }
        let Some(component) = self.find(slot.name) else {
            return Err(NameError::Unknown {
                name: slot.name.copy(alloc)?,
                at: slot.at,
            });
        };
        if slot.asked.suits(component) {
            return Ok(());
        }
        Err(NameError::WrongKind {
            name: slot.name.copy(alloc)?,
            at: slot.at,
        })
    }
}

// The names of the slots that ask for a kind, each once.
fn listed(alloc: Global, slots: &[Slot<'_>]) -> Result<Items<Name>, NoMemory>
    ensures { IfOk result (λ names. names ≡ spec.listed (map seen slots.now)) }
{
    let mut names = Items::new(alloc);
    for slot in slots {
        if is_listed(slot) {
            add_name(alloc, &mut names, slot.name)?;
        }
    }
    Ok(names)
}

fn is_listed(slot: &Slot<'_>) -> bool
    ensures { result ≡ spec.is_listed (seen slot.now) }
{
    slot.asked.asks_a_kind() && !is_array_template(slot.name)
}

// Adds a name that is not there.
fn add_name(alloc: Global, names: &mut Items<Name>, name: &Name) -> Result<(), NoMemory>
    ensures { OnOk result (names.new ≡ spec.with_name names.old name.now) }
{
    if !has(names.as_slice(), name) {
        names.push(name.copy(alloc)?)?;
    }
    Ok(())
}

fn has(names: &[Name], name: &Name) -> bool
    ensures { result ≡ list_any (bytes_eq name.now) names.now }
{
    names.iter().any(|own| name.same(own))
}
