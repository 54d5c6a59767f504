//! What the names of a procedure's body mean.

ghost use Rattle.std.specs.Prelude.{◌≡◌, None, Some, map};
ghost use Rattle.std.specs.List.{list_all};
ghost use Rattle.std.specs.Option.{option_copied, option_map};
ghost use Rattle.type_rules.specs.Origins.{origin};
ghost use Rattle.type_rules.specs.working.Seen.{seen_scope};
ghost use Rattle.type_modes.specs.Places as spec;
ghost use Rattle.type_modes.specs.working.Found as found;
ghost use Rattle.type_modes.specs.working.Seen.{seen_body, seen_holder, seen_spot};

use crate::places::{Holder, Spot, lists};
use math_terms::Name;
use module_table::Table;
use res_ast::{Component, PType, Param, Place, Procedure, Rep};
use type_rules::{Scope, scope_of};

/// The procedure of a number, from 0, of a component, with what is known there, and with the record for which the own family
/// stands, if it does.
#[derive(Clone, Copy)]
pub(crate) struct Body<'c> {
    pub(crate) component: &'c Component,
    pub(crate) number: usize,
    pub(crate) procedure: &'c Procedure,
    pub(crate) scope: Scope<'c>,
    pub(crate) rep: Option<&'c Rep>,
}

// The record of a realization of a concept.
fn rep_of(component: &Component) -> Option<&Rep>
    ensures { option_copied result ≡ found.rep_of component.now }
{
    match component {
        Component::Realization(own) if own.enhancement.is_none() => own.rep.as_ref(),
        _ => None,
    }
}

// The first entry of a name.
fn typed_named<'c>(entries: &'c [(Name, PType)], name: &Name) -> Option<&'c PType>
    ensures { option_copied result ≡ spec.named entries.now name.now }
{
    match entries.iter().find(|entry| name.same(&entry.0)) {
        Some(entry) => Some(&entry.1),
        None => None,
    }
}

// The first parameter of a name.
fn param_named<'c>(params: &'c [Param], name: &Name) -> Option<&'c Param>
    ensures { option_copied result ≡ found.param_named params.now name.now }
{
    params.iter().find(|param| name.same(&param.name))
}

impl<'c> Body<'c> {
    pub(crate) fn new(
        table: &'c Table,
        component: &'c Component,
        number: usize,
        procedure: &'c Procedure,
    ) -> Body<'c>
        ensures { seen_body result ≡ spec.body table.now component.now number procedure.now }
    {
        Body {
            component,
            number,
            procedure,
            scope: scope_of(table, component),
            rep: rep_of(component),
        }
    }

    // The result, where it has the name.
    fn result_named(&self, name: &Name) -> Option<&'c PType>
        ensures { option_copied result ≡ found.result_named self.now.procedure.now.heading name.now }
    {
        let heading = &self.procedure.heading;
        match &heading.result {
            Some(ptype) if name.same(&heading.name) => Some(ptype),
            _ => None,
        }
    }

    // The result or the variable of a name.
    fn own_named(&self, name: &Name) -> Option<&'c PType>
        ensures { option_copied result ≡ found.own_named self.now.procedure.now name.now }
    {
        match self.result_named(name) {
            Some(ptype) => Some(ptype),
            None => typed_named(self.procedure.vars.as_slice(), name),
        }
    }

    fn own_holder(&self, name: &Name) -> Option<Holder<'c>>
        ensures { option_map seen_holder result ≡ option_map (λ t. spec.holder None (origin self.now.scope.table.now (seen_scope self.now.scope) t)) (found.own_named self.now.procedure.now name.now) }
    {
        let ptype = self.own_named(name)?;
        Some(Holder {
            mode: None,
            origin: self.scope.origin(ptype),
        })
    }

    // What the first parameter of a name is, or else the result or the variable.
    #[tactic(auto, using(crate::proofs::Named::holder_of))]
    fn holder_named(&self, name: &Name) -> Option<Holder<'c>>
        ensures { option_map seen_holder result ≡ spec.named (seen_body self.now).holders name.now }
    {
        match param_named(self.procedure.heading.params.as_slice(), name) {
            Some(param) => Some(Holder {
                mode: Some(param.mode),
                origin: self.scope.origin(&param.ptype),
            }),
            None => self.own_holder(name),
        }
    }

    // The field of a name of what is held here.
    #[tactic(auto, using(crate::proofs::Named::field_named))]
    fn field_of(&self, held: &Holder<'c>, name: &Name) -> Option<Holder<'c>>
        ensures { option_map seen_holder result ≡ spec.field_of (seen_body self.now) (seen_holder held.now) name.now }
    {
        if !held.is_own() {
            return None;
        }
        let rep = self.rep?;
        let ptype = typed_named(rep.fields.as_slice(), name)?;
        Some(Holder {
            mode: held.mode,
            origin: self.scope.origin(ptype),
        })
    }

    /// What stands at a place. Where nothing that is declared stands there, none.
    pub(crate) fn at(&self, spot: Spot<'_>) -> Option<Holder<'c>>
        ensures { option_map seen_holder result ≡ spec.at (seen_body self.now) (seen_spot spot.entry) }
    {
        let held = self.holder_named(spot.base)?;
        match spot.field {
            None => Some(held),
            Some(field) => self.field_of(&held, field),
        }
    }

    // Whether a changing list has each field of a name.
    #[tactic(auto, using(crate::proofs::Named::fields_listed))]
    fn lists_fields(&self, listed: &[Place], name: &Name) -> bool
        ensures { result ≡ spec.lists_fields (seen_body self.now) (map spec.spot listed.now) name.now }
    {
        match self.holder_named(name) {
            Some(held) if held.is_own() => match self.rep {
                Some(rep) => lists_all(listed, name, rep.fields.as_slice()),
                None => false,
            },
            _ => false,
        }
    }

    /// Whether a changing list has a place, or each of its fields.
    pub(crate) fn is_listed(&self, listed: &[Place], changed: Spot<'_>) -> bool
        ensures { result ≡ spec.is_listed (seen_body self.now) (map spec.spot listed.now) (seen_spot changed.entry) }
    {
        lists(listed, changed)
            || (changed.field.is_none() && self.lists_fields(listed, changed.base))
    }
}

// Whether a changing list has these fields of a name.
fn lists_all(listed: &[Place], name: &Name, fields: &[(Name, PType)]) -> bool
    ensures { result ≡ list_all (λ f. spec.lists (map spec.spot listed.now) (name.now, Some f.0)) fields.now }
{
    fields.iter().all(|field| {
        let spot = Spot {
            base: name,
            field: Some(&field.0),
        };
        lists(listed, spot)
    })
}
