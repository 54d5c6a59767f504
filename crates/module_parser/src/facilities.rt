//! Declarations of facilities.

ghost use Rattle.std.specs.Prelude.{◌≡◌, OnOk};
ghost use Rattle.module_parser.specs.Facilities.{add_facility, add_pair, facility_act, minus_arg, realized_by, type_arg};

use crate::action::FacilityAction;
use crate::stacks::{open, put};
use crate::state::State;
use expr_parser::{Word, add_to, name_of, negated, taken, value_of};
use math_terms::NoMemory;
use res_ast::{FacArg, FacDecl};
use res_lexer::Token;
use sqlite_items::Items;
use std::alloc::Global;

impl State {
    fn type_arg(&mut self, alloc: Global) -> Result<(), NoMemory>
        ensures { OnOk result (self.new ≡ type_arg self.old) }
    {
        let ptype = self.take_type(alloc)?;
        add_to(alloc, &mut self.args, FacArg::OfType(ptype))
    }

    fn minus_arg(&mut self, alloc: Global, last: &Token) -> Result<(), NoMemory>
        ensures { OnOk result (self.new ≡ minus_arg last.now self.old) }
    {
        let Word { at, .. } = self.take_word(alloc)?;
        let number = negated(value_of(last));
        add_to(alloc, &mut self.args, FacArg::Number(at, number))
    }

    fn realized_by(&mut self, alloc: Global) -> Result<(), NoMemory>
        ensures { OnOk result (self.new ≡ realized_by self.old) }
    {
        let Word { name, .. } = self.take_word(alloc)?;
        put(&mut self.optional, Some(name))
    }

    fn add_pair(&mut self, alloc: Global, last: &Token) -> Result<(), NoMemory>
        ensures { OnOk result (self.new ≡ add_pair last.now self.old) }
    {
        let realization = name_of(alloc, last)?;
        let Word { name, .. } = self.take_word(alloc)?;
        add_to(alloc, &mut self.pairs, (name, realization))
    }

    fn add_facility(&mut self, alloc: Global) -> Result<(), NoMemory>
        ensures { OnOk result (self.new ≡ add_facility self.old) }
    {
        let concept = self.take_word(alloc)?;
        let Word { name, .. } = self.take_word(alloc)?;
        let Word { at, .. } = self.take_word(alloc)?;
        let args = taken(&mut self.args, Items::new(alloc));
        let realization = taken(&mut self.optional, None);
        let enhanced = taken(&mut self.pairs, Items::new(alloc));
        let facility = FacDecl {
            at,
            name,
            concept: concept.name,
            args,
            realization,
            enhanced,
        };
        add_to(alloc, &mut self.facilities, facility)
    }

    /// What an action of facilities builds.
    pub fn facility_act(
        &mut self,
        alloc: Global,
        action: FacilityAction,
        last: &Token,
    ) -> Result<(), NoMemory>
        ensures { OnOk result (self.new ≡ facility_act action last.now self.old) }
    {
        match action {
            FacilityAction::Facilities => open(alloc, &mut self.facilities),
            FacilityAction::Args => open(alloc, &mut self.args),
            FacilityAction::TypeArg => self.type_arg(alloc),
            FacilityAction::NumberArg => {
                let number = FacArg::Number(last.at, value_of(last));
                add_to(alloc, &mut self.args, number)
            }
            FacilityAction::MinusArg => self.minus_arg(alloc, last),
            FacilityAction::RealizedBy => self.realized_by(alloc),
            FacilityAction::NotRealized => put(&mut self.optional, None),
            FacilityAction::Pairs => open(alloc, &mut self.pairs),
            FacilityAction::AddPair => self.add_pair(alloc, last),
            FacilityAction::AddFacility => self.add_facility(alloc),
        }
    }
}
