//! Statements, each put at the end of the block on top.

ghost use Rattle.std.specs.Prelude.{◌≡◌, ◌∷◌, [], OnOk, IfOk};
ghost use Rattle.expr_parser.specs.Actions.{added, others};
ghost use Rattle.module_parser.specs.Stacks.{place_0};
ghost use Rattle.module_parser.specs.Statements.{add_statement, assign, call_statement, facility_call, if_statement, place_alone, place_field, statement_act, swap, while_statement};

use crate::action::StmtAction;
use crate::stacks::{open, put};
use crate::state::State;
use expr_parser::{Word, add_to, taken};
use math_terms::{Name, NoMemory};
use res_ast::{Place, Stmt};
use sqlite_items::Items;
use std::alloc::Global;

impl State {
    fn add_statement(&mut self, alloc: Global, statement: Stmt) -> Result<(), NoMemory>
        ensures { OnOk result (self.new ≡ add_statement statement self.old) }
    {
        add_to(alloc, &mut self.blocks, statement)
    }

    fn take_place(&mut self, alloc: Global) -> Result<Place, NoMemory>
        ensures { IfOk result (λ p. (p ≡ place_0 self.old) × (self.new ≡ record self.old { places = others self.old.places })) }
    {
        match self.places.pop() {
            Some(place) => Ok(place),
            None => Ok(Place {
                at: 0,
                base: Name::new(alloc, &[])?,
                field: None,
            }),
        }
    }

    fn place_alone(&mut self, alloc: Global) -> Result<(), NoMemory>
        ensures { OnOk result (self.new ≡ place_alone self.old) }
    {
        let Word { at, name } = self.take_word(alloc)?;
        let place = Place {
            at,
            base: name,
            field: None,
        };
        put(&mut self.places, place)
    }

    fn place_field(&mut self, alloc: Global) -> Result<(), NoMemory>
        ensures { OnOk result (self.new ≡ place_field self.old) }
    {
        let field = self.take_word(alloc)?;
        let Word { at, name } = self.take_word(alloc)?;
        let place = Place {
            at,
            base: name,
            field: Some(field.name),
        };
        put(&mut self.places, place)
    }

    fn add_place(&mut self, alloc: Global) -> Result<(), NoMemory>
        ensures { OnOk result (self.new ≡ record self.old { places = others self.old.places; place_lists = added (place_0 self.old) self.old.place_lists }) }
    {
        let place = self.take_place(alloc)?;
        add_to(alloc, &mut self.place_lists, place)
    }

    fn swap(&mut self, alloc: Global) -> Result<(), NoMemory>
        ensures { OnOk result (self.new ≡ swap self.old) }
    {
        let second = self.take_place(alloc)?;
        let first = self.take_place(alloc)?;
        self.add_statement(alloc, Stmt::Swap(first.at, first, second))
    }

    fn assign(&mut self, alloc: Global) -> Result<(), NoMemory>
        ensures { OnOk result (self.new ≡ assign self.old) }
    {
        let place = self.take_place(alloc)?;
        let value = self.take_expr();
        self.add_statement(alloc, Stmt::Assign(place.at, place, value))
    }

    fn call(&mut self, alloc: Global) -> Result<(), NoMemory>
        ensures { OnOk result (self.new ≡ call_statement self.old) }
    {
        let Word { at, name } = self.take_word(alloc)?;
        let args = self.take_list(alloc);
        self.add_statement(alloc, Stmt::Call(at, None, name, args))
    }

    fn facility_call(&mut self, alloc: Global) -> Result<(), NoMemory>
        ensures { OnOk result (self.new ≡ facility_call self.old) }
    {
        let operation = self.take_word(alloc)?;
        let Word { at, name } = self.take_word(alloc)?;
        let args = self.take_list(alloc);
        self.add_statement(alloc, Stmt::Call(at, Some(name), operation.name, args))
    }

    fn if_statement(&mut self, alloc: Global) -> Result<(), NoMemory>
        ensures { OnOk result (self.new ≡ if_statement self.old) }
    {
        let Word { at, .. } = self.take_word(alloc)?;
        let guard = self.take_expr();
        let second = taken(&mut self.blocks, Items::new(alloc));
        let first = taken(&mut self.blocks, Items::new(alloc));
        self.add_statement(alloc, Stmt::If(at, guard, first, second))
    }

    fn while_statement(&mut self, alloc: Global) -> Result<(), NoMemory>
        ensures { OnOk result (self.new ≡ while_statement self.old) }
    {
        let Word { at, .. } = self.take_word(alloc)?;
        let metric = self.take_expr();
        let invariant = self.take_expr();
        let guard = self.take_expr();
        let places = taken(&mut self.place_lists, Items::new(alloc));
        let body = taken(&mut self.blocks, Items::new(alloc));
        self.add_statement(
            alloc,
            Stmt::While(at, guard, places, invariant, metric, body),
        )
    }

    /// What an action of statements builds.
    pub fn statement_act(&mut self, alloc: Global, action: StmtAction) -> Result<(), NoMemory>
        ensures { OnOk result (self.new ≡ statement_act action self.old) }
    {
        match action {
            StmtAction::Block => open(alloc, &mut self.blocks),
            StmtAction::PlaceAlone => self.place_alone(alloc),
            StmtAction::PlaceField => self.place_field(alloc),
            StmtAction::Places => open(alloc, &mut self.place_lists),
            StmtAction::AddPlace => self.add_place(alloc),
            StmtAction::Swap => self.swap(alloc),
            StmtAction::Assign => self.assign(alloc),
            StmtAction::Call => self.call(alloc),
            StmtAction::FacilityCall => self.facility_call(alloc),
            StmtAction::If => self.if_statement(alloc),
            StmtAction::While => self.while_statement(alloc),
        }
    }
}
