//! Places, and what stands there.

ghost use Rattle.std.specs.Prelude.{◌≡◌, map};
ghost use Rattle.std.specs.Option.{option_copied};
ghost use Rattle.type_modes.specs.Places as spec;
ghost use Rattle.type_modes.specs.working.Seen.{seen_holder, seen_spot};

use math_terms::Name;
use res_ast::{Mode, Place};
use type_rules::Origin;

/// A name, or a field of one.
#[derive(Clone, Copy)]
pub(crate) struct Spot<'c> {
    pub(crate) base: &'c Name,
    pub(crate) field: Option<&'c Name>,
}

/// A parameter with its mode, the result, a variable, or a field of one of them, and its type where that is known.
#[derive(Clone, Copy)]
pub(crate) struct Holder<'c> {
    pub(crate) mode: Option<Mode>,
    pub(crate) origin: Option<Origin<'c>>,
}

impl Holder<'_> {
    /// Whether a body may change it.
    pub(crate) fn is_changeable(&self) -> bool
        ensures { result ≡ spec.is_changeable (seen_holder self.now) }
    {
        !matches!(self.mode, Some(Mode::Evaluates | Mode::Preserves))
    }

    /// Whether it is of the own family.
    pub(crate) fn is_own(&self) -> bool
        ensures { result ≡ spec.is_own (seen_holder self.now).origin }
    {
        matches!(self.origin, Some(Origin::Own))
    }
}

fn meet(one: Option<&Name>, other: Option<&Name>) -> bool
    ensures { result ≡ spec.meet (option_copied one.entry) (option_copied other.entry) }
{
    match (one, other) {
        (Some(one), Some(other)) => one.same(other),
        _ => true,
    }
}

impl<'c> Spot<'c> {
    /// A place of a text.
    pub(crate) fn of(place: &'c Place) -> Spot<'c>
        ensures { seen_spot result ≡ spec.spot place.now }
    {
        Spot {
            base: &place.base,
            field: place.field.as_ref(),
        }
    }

    /// Whether it is the same place as another, or one is a field of the other.
    pub(crate) fn overlaps(&self, other: &Spot<'_>) -> bool
        ensures { result ≡ spec.overlap (seen_spot self.now) (seen_spot other.now) }
    {
        self.base.same(other.base) && meet(self.field, other.field)
    }
}

// Whether a place of a changing list stands for this one.
fn covers(place: &Place, changed: &Spot<'_>) -> bool
    ensures { result ≡ spec.covers (spec.spot place.now) (seen_spot changed.now) }
{
    if !place.base.same(changed.base) {
        return false;
    }
    match (&place.field, changed.field) {
        (None, _) => true,
        (Some(field), Some(own)) => field.same(own),
        (Some(_), None) => false,
    }
}

/// Whether a changing list has a place.
pub(crate) fn lists(listed: &[Place], changed: Spot<'_>) -> bool
    ensures { result ≡ spec.lists (map spec.spot listed.now) (seen_spot changed.entry) }
{
    listed.iter().any(|place| covers(place, &changed))
}
