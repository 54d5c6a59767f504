//! Procedures and components.

ghost use Rattle.std.specs.Prelude.{◌≡◌, OnOk};
ghost use Rattle.expr_parser.specs.Actions.{others};
ghost use Rattle.module_parser.specs.Components.{add_component, add_local, add_procedure, component_act, concept_of, enhancement_of, module_of, of_concept, realization_of, rep_of};
ghost use Rattle.module_parser.specs.Stacks.{block_0, clause_0, fields};

use crate::action::ComponentAction;
use crate::stacks::{open, put};
use crate::state::State;
use expr_parser::{Word, add_to, taken};
use math_terms::NoMemory;
use res_ast::{
    Component, Concept, Enhancement, FacilityModule, Heading, LocalOp, Procedure, Realization, Rep,
};
use res_lexer::Token;
use sqlite_items::Items;
use std::alloc::Global;

impl State {
    fn add_component(&mut self, component: Component) -> Result<(), NoMemory>
        ensures { OnOk result (self.new ≡ add_component component self.old) }
    {
        self.components.push(component)?;
        Ok(())
    }

    // Takes off what a procedure is made of beside its heading.
    fn take_procedure(&mut self, alloc: Global, at: u32, heading: Heading, end_at: u32) -> Procedure
        ensures value { result ≡ record { at = at; heading = heading; metric = clause_0 self.old; vars = fields self.old; body = block_0 self.old; end_at = end_at } }
        ensures rest { self.new ≡ record self.old { clauses = others self.old.clauses; fields = others self.old.fields; blocks = others self.old.blocks } }
    {
        Procedure {
            at,
            heading,
            metric: self.take_clause(),
            vars: taken(&mut self.fields, Items::new(alloc)),
            body: taken(&mut self.blocks, Items::new(alloc)),
            end_at,
        }
    }

    fn add_local(&mut self, alloc: Global) -> Result<(), NoMemory>
        ensures { OnOk result (self.new ≡ add_local self.old) }
    {
        let end = self.take_word(alloc)?;
        let heading = self.take_heading(alloc)?;
        let procedure = self.take_procedure(alloc, heading.at, heading, end.at);
        add_to(alloc, &mut self.locals, LocalOp { procedure })
    }

    fn add_procedure(&mut self, alloc: Global) -> Result<(), NoMemory>
        ensures { OnOk result (self.new ≡ add_procedure self.old) }
    {
        let end = self.take_word(alloc)?;
        let first = self.take_word(alloc)?;
        let heading = self.take_heading(alloc)?;
        let procedure = self.take_procedure(alloc, first.at, heading, end.at);
        add_to(alloc, &mut self.procedures, procedure)
    }

    fn rep(&mut self, alloc: Global) -> Result<(), NoMemory>
        ensures { OnOk result (self.new ≡ rep_of self.old) }
    {
        let conc = self.take_word(alloc)?;
        let Word { name, .. } = self.take_word(alloc)?;
        let Word { at, .. } = self.take_word(alloc)?;
        let correspondence = self.take_expr();
        let convention = self.take_expr();
        let fields = taken(&mut self.fields, Items::new(alloc));
        let rep = Rep {
            at,
            name,
            fields,
            convention,
            conc: conc.name,
            correspondence,
        };
        put(&mut self.reps, Some(rep))
    }

    fn concept(&mut self, alloc: Global) -> Result<(), NoMemory>
        ensures { OnOk result (self.new ≡ concept_of self.old) }
    {
        let Word { name, .. } = self.take_word(alloc)?;
        let Word { at, .. } = self.take_word(alloc)?;
        let uses = self.take_names(alloc)?;
        let concept = Concept {
            at,
            name,
            formals: taken(&mut self.formals, Items::new(alloc)),
            uses,
            requires_clause: self.take_clause(),
            family: taken(&mut self.families, None),
            headings: taken(&mut self.heading_lists, Items::new(alloc)),
        };
        self.add_component(Component::Concept(concept))
    }

    fn enhancement(&mut self, alloc: Global) -> Result<(), NoMemory>
        ensures { OnOk result (self.new ≡ enhancement_of self.old) }
    {
        let concept = self.take_word(alloc)?;
        let Word { name, .. } = self.take_word(alloc)?;
        let Word { at, .. } = self.take_word(alloc)?;
        let uses = self.take_names(alloc)?;
        let headings = taken(&mut self.heading_lists, Items::new(alloc));
        self.add_component(Component::Enhancement(Enhancement {
            at,
            name,
            concept: concept.name,
            uses,
            headings,
        }))
    }

    fn realization(&mut self, alloc: Global) -> Result<(), NoMemory>
        ensures { OnOk result (self.new ≡ realization_of self.old) }
    {
        let end = self.take_word(alloc)?;
        let concept = self.take_word(alloc)?;
        let Word { name, .. } = self.take_word(alloc)?;
        let Word { at, .. } = self.take_word(alloc)?;
        let uses = self.take_names(alloc)?;
        let realization = Realization {
            at,
            name,
            enhancement: taken(&mut self.optional, None),
            concept: concept.name,
            uses,
            facilities: taken(&mut self.facilities, Items::new(alloc)),
            rep: taken(&mut self.reps, None),
            locals: taken(&mut self.locals, Items::new(alloc)),
            procs: taken(&mut self.procedures, Items::new(alloc)),
            end_at: end.at,
        };
        self.add_component(Component::Realization(realization))
    }

    fn module(&mut self, alloc: Global) -> Result<(), NoMemory>
        ensures { OnOk result (self.new ≡ module_of self.old) }
    {
        let Word { name, .. } = self.take_word(alloc)?;
        let Word { at, .. } = self.take_word(alloc)?;
        let uses = self.take_names(alloc)?;
        let facilities = taken(&mut self.facilities, Items::new(alloc));
        let operations = taken(&mut self.locals, Items::new(alloc));
        self.add_component(Component::Facility(FacilityModule {
            at,
            name,
            uses,
            facilities,
            operations,
        }))
    }

    fn of_concept(&mut self, alloc: Global, last: &Token) -> Result<(), NoMemory>
        ensures { OnOk result (self.new ≡ of_concept last.now self.old) }
    {
        let concept = Word::of(alloc, last)?;
        let Word { name, .. } = self.take_word(alloc)?;
        put(&mut self.optional, Some(name))?;
        put(&mut self.operands.words, concept)
    }

    /// What an action of components builds.
    pub fn component_act(
        &mut self,
        alloc: Global,
        action: ComponentAction,
        last: &Token,
    ) -> Result<(), NoMemory>
        ensures { OnOk result (self.new ≡ component_act action last.now self.old) }
    {
        match action {
            ComponentAction::Concept => self.concept(alloc),
            ComponentAction::Enhancement => self.enhancement(alloc),
            ComponentAction::Realization => self.realization(alloc),
            ComponentAction::Module => self.module(alloc),
            ComponentAction::OfConcept => self.of_concept(alloc, last),
            ComponentAction::ForConcept => put(&mut self.optional, None),
            ComponentAction::Rep => self.rep(alloc),
            ComponentAction::NoRep => put(&mut self.reps, None),
            ComponentAction::Locals => open(alloc, &mut self.locals),
            ComponentAction::AddLocal => self.add_local(alloc),
            ComponentAction::Procedures => open(alloc, &mut self.procedures),
            ComponentAction::AddProcedure => self.add_procedure(alloc),
        }
    }
}
