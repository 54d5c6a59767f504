//! The rules of statements.

ghost use Rattle.std.specs.Prelude.{◌≡◌, map};
ghost use Rattle.std.specs.List.{flat_map};
ghost use Rattle.std.specs.Option.{option_map};
ghost use Rattle.type_rules.specs.Breaches.{least_of};
ghost use Rattle.type_rules.specs.working.Seen.{seen_origin};
ghost use Rattle.type_modes.specs.Expressions.{look};
ghost use Rattle.type_modes.specs.Statements as spec;
ghost use Rattle.type_modes.specs.working.Seen.{seen_body};

use crate::body::Body;
use crate::changes::Loop;
use crate::places::Spot;
use res_ast::{Expr, Place, Stmt};
use type_rules::{Breach, Least, Origin, differ, is_known_stream, is_no_scalar};

impl<'c> Body<'c> {
    fn origin_at(&self, place: &'c Place) -> Option<Origin<'c>>
        ensures { option_map seen_origin result ≡ spec.origin_at (seen_body self.now) place.now }
    {
        self.at(Spot::of(place))?.origin
    }

    // A place that is written.
    fn target(&self, place: &'c Place, least: &mut Least<'c>)
        ensures { least.new ≡ least_of least.old (spec.target (seen_body self.now) place.now) }
    {
        let at = place.at;
        match self.at(Spot::of(place)) {
            None => least.note(Breach::OfType { at }),
            Some(held) => least.note_if(!held.is_changeable(), Breach::Mode { at }),
        }
    }

    fn swap(&self, one: &'c Place, other: &'c Place, least: &mut Least<'c>)
        ensures { least.new ≡ least_of least.old (spec.swap (seen_body self.now) one.now other.now) }
    {
        self.target(one, least);
        self.target(other, least);
        let first = self.origin_at(one);
        let second = self.origin_at(other);
        let at = other.at;
        least.note_if(is_known_stream(first), Breach::Stream { at: one.at });
        least.note_if(is_known_stream(second), Breach::Stream { at });
        least.note_if(differ(first, second), Breach::OfType { at });
        let overlap = Spot::of(other).overlaps(&Spot::of(one));
        least.note_if(overlap, Breach::Repeated { at });
    }

    fn assign(&self, place: &'c Place, value: &'c Expr, least: &mut Least<'c>)
        ensures { least.new ≡ least_of least.old (spec.assign (seen_body self.now) place.now (look (seen_body self.now) value.now)) }
    {
        self.target(place, least);
        let wanted = self.origin_at(place);
        let fails = is_no_scalar(wanted);
        least.note_if(fails, Breach::OfType { at: place.at });
        let origin = self.look(value, least);
        let differs = !fails && differ(wanted, origin);
        least.note_if(differs, Breach::OfType { at: value.at });
    }

    fn guard(&self, guard: &'c Expr, least: &mut Least<'c>)
        ensures { least.new ≡ least_of least.old (spec.guard (look (seen_body self.now) guard.now)) }
    {
        let origin = self.look(guard, least);
        let differs = differ(Some(Origin::Boolean), origin);
        least.note_if(differs, Breach::OfType { at: guard.at });
    }

    // The places of a changing list.
    fn listed(&self, places: &'c [Place], least: &mut Least<'c>)
        ensures { least.new ≡ least_of least.old (flat_map (spec.listed (seen_body self.now)) places.now) }
    {
        for place in places {
            let missing = self.at(Spot::of(place)).is_none();
            least.note_if(missing, Breach::OfType { at: place.at });
        }
    }

    #[cycle(statement)]
    fn statement(&self, stmt: &'c Stmt, least: &mut Least<'c>)
        ensures { least.new ≡ least_of least.old (spec.statement (seen_body self.now) stmt.now).breaches }
    {
        match stmt {
            Stmt::Swap(_, one, other) => self.swap(one, other, least),
            Stmt::Assign(_, place, value) => self.assign(place, value, least),
            Stmt::Call(at, facility, name, args) => {
                self.look_call(false, facility, name, args.as_slice(), *at, least);
            }
            Stmt::If(_, guard, first, second) => {
                self.guard(guard, least);
                self.statements(first.as_slice(), least);
                self.statements(second.as_slice(), least);
            }
            Stmt::While(at, guard, places, _, _, inner) => {
                self.guard(guard, least);
                self.listed(places.as_slice(), least);
                let around = Loop {
                    body: *self,
                    listed: places.as_slice(),
                    at: *at,
                };
                around.note_stmts(inner.as_slice(), least);
                self.statements(inner.as_slice(), least);
            }
        }
    }

    /// Notes the breaches in statements.
    #[cycle(statement)]
    pub(crate) fn statements(&self, stmts: &'c [Stmt], least: &mut Least<'c>)
        ensures { least.new ≡ least_of least.old (spec.breaches_in (map (spec.statement (seen_body self.now)) stmts.now)) }
    {
        for stmt in stmts {
            self.statement(stmt, least);
        }
    }
}
