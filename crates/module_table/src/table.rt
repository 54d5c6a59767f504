//! The table.

ghost use Rattle.std.specs.Prelude.{◌≡◌, ◌⊎◌, [], ◌∷◌, ◌++◌, length, slice_get, IfOk, IfErr, IfSome, OnOk, OnErr, None, Some, Ok, Err, false, MatchResult};
ghost use Rattle.std.specs.Option.{option_copied};
ghost use Rattle.std.specs.Str.{bytes_eq};
ghost use Rattle.indexmap.specs.IndexMap.{get_by};
ghost use Rattle.module_table.specs.declared.error.NameError.TheVariants.{NoMemory};
ghost use Rattle.module_table.specs.Tables as spec;
ghost use Rattle.module_table.specs.Tables.{held, added, is_array_template, is_taken};

use crate::error::NameError;
use indexmap::IndexMap;
use math_terms::Name;
use res_ast::Component;
use std::alloc::Global;
use std::marker::Model;

const ARRAY_TEMPLATE: &[u8] = b"Static_Array_Template";

/// Components by name, in their order of arrival. A name is found by its hash.
#[derive(Drop)]
pub struct Table {
    components: IndexMap<Vec<u8>, Component>,
}

impl Model for Table {
    ghost use Rattle.std.specs.Prelude.{List};
    ghost use Rattle.std.specs.Coded.{coded_list};
    ghost use Rattle.res_ast.specs.contracts.component.Component as component;
    ghost use Rattle.res_ast.specs.declared.component.Component.{Component};
    ghost use Rattle.indexmap.specs.IndexMap.{values};
    ghost use Rattle.module_table.specs.working.Keys.{KeyedByName};

    ghost Value = { List Component };

    ghost coded = { coded_list component.the_row.coded };

    ghost view = { λ t. values t.components };

    ghost invariant = { λ t. KeyedByName t.components.entries };
}

impl Table {
    /// The table of no components.
    pub fn new(alloc: Global) -> Table
        ensures { result ≡ [] }
    {
        Table {
            components: IndexMap::new(alloc),
        }
    }

    /// Takes a component in, behind the others, or leaves the table as it was.
    pub fn add(&mut self, alloc: Global, component: Component) -> Result<(), NameError>
        ensures { MatchResult result (λ _. added self.old component ≡ Ok self.new) (λ e. (self.new ≡ self.old) × ((e ≡ NoMemory) ⊎ (added self.old component ≡ Err e))) }
    {
        let key = self.key(alloc, &component);
        put(&mut self.components, key, component)
    }

    /// The component of this name.
    pub fn find(&self, name: &Name) -> Option<&Component>
        ensures { option_copied result ≡ held self.now name.now }
    {
        self.components.get(name.bytes())
    }

    /// How many components there are.
    pub fn len(&self) -> usize
        ensures { result ≡ length self.now }
    {
        self.components.len()
    }

    /// The component of this number, from 0, in the order of arrival.
    pub fn at(&self, index: usize) -> Option<&Component>
        ensures value { option_copied result ≡ slice_get self.now index }
        ensures alone { IfSome result (λ component. held self.now (spec.name_of component.now) ≡ Some component.now) }
    {
        let (_, component) = self.components.get_index(index)?;
        Some(component)
    }

    // Whether no further component may have this name.
    fn is_taken(&self, name: &Name) -> bool
        ensures { result ≡ is_taken self.now name.now }
    {
        is_array_template(name) || self.find(name).is_some()
    }

    // The key of a component that may come in.
    fn key(&self, alloc: Global, component: &Component) -> Result<Vec<u8>, NameError>
        ensures { MatchResult result (λ key. (key.items ≡ spec.name_of component.now) × (is_taken self.now (spec.name_of component.now) ≡ false)) (λ e. (e ≡ NoMemory) ⊎ (added self.now component.now ≡ Err e)) }
    {
        let name = name_of(component);
        if self.is_taken(name) {
            return Err(NameError::Duplicate {
                name: name.copy(alloc)?,
            });
        }
        Ok(Vec::from_slice(alloc, name.bytes())?)
    }
}

/// The name of a component.
pub fn name_of(component: &Component) -> &Name
    ensures { result.now ≡ spec.name_of component.now }
{
    match component {
        Component::Concept(concept) => &concept.name,
        Component::Enhancement(enhancement) => &enhancement.name,
        Component::Realization(realization) => &realization.name,
        Component::Facility(module) => &module.name,
    }
}

/// Whether this is the name of the concept of arrays, which is there without a component.
#[tactic(auto, unfolding(crate::specs::Tables::is_array_template))]
pub fn is_array_template(name: &Name) -> bool
    ensures { result ≡ is_array_template name.now }
{
    name.bytes() == ARRAY_TEMPLATE
}

// Puts a value behind the others, under a key that none of them has. A key that could not be made is the answer.
fn put<V: Drop>(
    map: &mut IndexMap<Vec<u8>, V>,
    key: Result<Vec<u8>, NameError>,
    value: V,
) -> Result<(), NameError>
    requires { IfOk key (λ k. get_by (λ other. bytes_eq k.items other.items) map.old ≡ None) }
    ensures ok { OnOk result (MatchResult key (λ k. map.new.entries ≡ map.old.entries ++ (k, value) ∷ []) (λ _. ⊥)) }
    ensures err { IfErr result (λ e. (map.new.entries ≡ map.old.entries) × ((e ≡ NoMemory) ⊎ (key ≡ Err e))) }
{
    let key = key?;
    match map.insert(key, value) {
        Ok(_) => Ok(()),
        Err(_) => Err(NameError::NoMemory),
    }
}
