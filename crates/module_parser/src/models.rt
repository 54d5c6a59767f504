//! Families and models.

ghost use Rattle.std.specs.Prelude.{◌≡◌, OnOk};
ghost use Rattle.module_parser.specs.Models.{add_factor, add_part, family_of, model_act, parameter, product};

use crate::action::ModelAction;
use crate::stacks::{open, put};
use crate::state::State;
use expr_parser::{Word, add_to, name_of, taken};
use math_terms::NoMemory;
use res_ast::{Family, MPart, MType};
use res_lexer::Token;
use sqlite_items::Items;
use std::alloc::Global;
use std::mem::replace;

impl State {
    fn add_part(&mut self, part: MPart) -> Result<(), NoMemory>
        ensures { OnOk result (self.new ≡ add_part part self.old) }
    {
        self.model.push(part)?;
        Ok(())
    }

    fn parameter(&mut self, alloc: Global, last: &Token) -> Result<(), NoMemory>
        ensures { OnOk result (self.new ≡ parameter last.now self.old) }
    {
        let name = name_of(alloc, last)?;
        self.add_part(MPart::Param(name))
    }

    fn add_factor(&mut self, alloc: Global) -> Result<(), NoMemory>
        ensures { OnOk result (self.new ≡ add_factor self.old) }
    {
        let Word { name, .. } = self.take_word(alloc)?;
        add_to(alloc, &mut self.factors, name)
    }

    fn product(&mut self, alloc: Global) -> Result<(), NoMemory>
        ensures { OnOk result (self.new ≡ product self.old) }
    {
        let names = taken(&mut self.factors, Items::new(alloc));
        self.add_part(MPart::Prod(names))
    }

    fn family(&mut self, alloc: Global) -> Result<(), NoMemory>
        ensures { OnOk result (self.new ≡ family_of self.old) }
    {
        let exemplar = self.take_word(alloc)?;
        let Word { name, .. } = self.take_word(alloc)?;
        let Word { at, .. } = self.take_word(alloc)?;
        let constraint = self.take_clause();
        let initial = self.take_expr();
        let parts = replace(&mut self.model, Items::new(alloc));
        self.families.push(Some(Family {
            at,
            name,
            model: MType { parts },
            exemplar: exemplar.name,
            constraint,
            initial,
        }))?;
        Ok(())
    }

    /// What an action of models and families builds.
    pub fn model_act(
        &mut self,
        alloc: Global,
        action: ModelAction,
        last: &Token,
    ) -> Result<(), NoMemory>
        ensures { OnOk result (self.new ≡ model_act action last.now self.old) }
    {
        match action {
            ModelAction::Z => self.add_part(MPart::Z),
            ModelAction::B => self.add_part(MPart::B),
            ModelAction::Str => self.add_part(MPart::Str),
            ModelAction::Param => self.parameter(alloc, last),
            ModelAction::Factors => open(alloc, &mut self.factors),
            ModelAction::AddFactor => self.add_factor(alloc),
            ModelAction::Product => self.product(alloc),
            ModelAction::Family => self.family(alloc),
            ModelAction::NoFamily => put(&mut self.families, None),
        }
    }
}
