//! Where types come from, and what is known at a place.

ghost use Rattle.std.specs.Prelude.{◌≡◌, Bool, ℕ, List, true, false, if◌then◌else◌};
ghost use Rattle.std.specs.Option.{option_copied, option_map, option_map_or};
ghost use Rattle.type_rules.specs.Origins as spec;
ghost use Rattle.type_rules.specs.working.Seen.{seen_origin, seen_scope};

use crate::concepts::concept_in;
use math_terms::Name;
use module_table::{Table, is_array_template};
use res_ast::{Concept, FacDecl, Formal, PType};

const INTEGER: &[u8] = b"Integer";

const BOOLEAN: &[u8] = b"Boolean";

const IN_STREAM: &[u8] = b"In_Stream";

const OUT_STREAM: &[u8] = b"Out_Stream";

const STATIC_ARRAY: &[u8] = b"Static_Array";

/// A built-in type, the family of the own concept, a type formal, or the type of a facility: types are the same only where they
/// come from the same declaration.
#[derive(Clone, Copy)]
pub enum Origin<'c> {
    Integer,
    Boolean,
    In,
    Out,
    Own,
    Formal(&'c Name),
    Of(&'c Name),
}

/// The formals and the family that a component sees, and the declarations of facilities in front of a place.
#[derive(Clone, Copy)]
pub struct Scope<'c> {
    pub table: &'c Table,
    pub formals: &'c [Formal],
    pub family: Option<&'c Name>,
    pub facilities: &'c [FacDecl],
}

impl Origin<'_> {
    /// Whether both are one type.
    pub fn same(&self, other: &Origin<'_>) -> bool
        ensures { result ≡ spec.same (seen_origin self.now) (seen_origin other.now) }
    {
        match self {
            Origin::Integer => matches!(other, Origin::Integer),
            Origin::Boolean => matches!(other, Origin::Boolean),
            Origin::In => matches!(other, Origin::In),
            Origin::Out => matches!(other, Origin::Out),
            Origin::Own => matches!(other, Origin::Own),
            Origin::Formal(name) => match other {
                Origin::Formal(own) => name.same(own),
                _ => false,
            },
            Origin::Of(facility) => match other {
                Origin::Of(own) => facility.same(own),
                _ => false,
            },
        }
    }

    /// Whether its values are copied and compared.
    pub fn is_scalar(&self) -> bool
        ensures { result ≡ spec.is_scalar (seen_origin self.now) }
    {
        matches!(self, Origin::Integer | Origin::Boolean)
    }

    /// Whether it is a stream's.
    pub fn is_stream(&self) -> bool
        ensures { result ≡ spec.is_stream (seen_origin self.now) }
    {
        matches!(self, Origin::In | Origin::Out)
    }
}

/// Whether two types are known and not the same.
pub fn differ(a: Option<Origin<'_>>, b: Option<Origin<'_>>) -> bool
    ensures { result ≡ spec.differ (option_map seen_origin a.entry) (option_map seen_origin b.entry) }
{
    match (a, b) {
        (Some(a), Some(b)) => !a.same(&b),
        _ => false,
    }
}

/// Whether a type is known and neither Integer nor Boolean.
pub fn is_no_scalar(origin: Option<Origin<'_>>) -> bool
    ensures { result ≡ spec.is_no_scalar (option_map seen_origin origin.entry) }
{
    match origin {
        Some(origin) => !origin.is_scalar(),
        None => false,
    }
}

/// Whether a type is known, and Integer or Boolean.
pub fn is_known_scalar(origin: Option<Origin<'_>>) -> bool
    ensures { result ≡ spec.has spec.is_scalar (option_map seen_origin origin.entry) }
{
    match origin {
        Some(origin) => origin.is_scalar(),
        None => false,
    }
}

/// Whether a type is known and a stream's.
pub fn is_known_stream(origin: Option<Origin<'_>>) -> bool
    ensures { result ≡ spec.has spec.is_stream (option_map seen_origin origin.entry) }
{
    match origin {
        Some(origin) => origin.is_stream(),
        None => false,
    }
}

#[tactic(auto, unfolding(crate::specs::Origins::built_in))]
fn built_in<'c>(name: &Name) -> Option<Origin<'c>>
    ensures { option_map seen_origin result ≡ spec.built_in name.now }
{
    let bytes = name.bytes();
    if bytes == INTEGER {
        Some(Origin::Integer)
    } else if bytes == BOOLEAN {
        Some(Origin::Boolean)
    } else if bytes == IN_STREAM {
        Some(Origin::In)
    } else if bytes == OUT_STREAM {
        Some(Origin::Out)
    } else {
        None
    }
}

fn family_name(concept: &Concept) -> Option<&Name>
    ensures { option_copied result ≡ spec.family_name concept.now }
{
    match &concept.family {
        Some(family) => Some(&family.name),
        None => None,
    }
}

// Whether a declaration gives a type of this name.
#[tactic(auto, unfolding(crate::specs::Origins::is_array_name))]
fn gives_type(table: &Table, declaration: &FacDecl, name: &Name) -> bool
    ensures { result ≡ spec.gives_type table.now declaration.now name.now }
{
    if is_array_template(&declaration.concept) {
        return name.bytes() == STATIC_ARRAY;
    }
    match concept_in(table, &declaration.concept) {
        Some(concept) => match family_name(concept) {
            Some(own) => name.same(own),
            None => false,
        },
        None => false,
    }
}

impl<'c> Scope<'c> {
    /// What is known in a component of this concept behind these declarations.
    pub fn behind(
        table: &'c Table,
        concept: Option<&'c Concept>,
        facilities: &'c [FacDecl],
    ) -> Scope<'c>
        ensures scope { seen_scope result ≡ spec.scope_in (option_copied concept.entry) facilities.now }
        ensures table { result.table.now ≡ table.now }
    {
        match concept {
            Some(concept) => Scope {
                table,
                formals: concept.formals.as_slice(),
                family: family_name(concept),
                facilities,
            },
            None => Scope {
                table,
                formals: &[],
                family: None,
                facilities,
            },
        }
    }

    /// The first formal of this name.
    pub fn formal_named(&self, name: &Name) -> Option<&'c Formal>
        ensures { option_copied result ≡ spec.formal_named (seen_scope self.now) name.now }
    {
        self.formals.iter().find(|formal| name.same(&formal.name))
    }

    /// The first facility of this name.
    pub fn facility_named(&self, name: &Name) -> Option<&'c FacDecl>
        ensures { option_copied result ≡ spec.facility_named (seen_scope self.now) name.now }
    {
        self.facilities
            .iter()
            .find(|facility| name.same(&facility.name))
    }

    /// Whether this is the name of a type formal.
    pub fn is_type_formal(&self, name: &Name) -> bool
        ensures { result ≡ spec.is_type_formal (seen_scope self.now) name.now }
    {
        match self.formal_named(name) {
            Some(formal) => formal.is_type,
            None => false,
        }
    }

    /// Whether this is the name of an Integer formal.
    pub fn is_constant(&self, name: &Name) -> bool
        ensures { result ≡ spec.is_constant (seen_scope self.now) name.now }
    {
        match self.formal_named(name) {
            Some(formal) => !formal.is_type,
            None => false,
        }
    }

    /// The type of this name by itself.
    pub fn origin_alone(&self, name: &'c Name) -> Option<Origin<'c>>
        ensures { option_map seen_origin result ≡ spec.origin_alone (seen_scope self.now) name.now }
    {
        if self.is_type_formal(name) {
            return Some(Origin::Formal(name));
        }
        if self.is_constant(name) {
            return None;
        }
        match built_in(name) {
            Some(origin) => Some(origin),
            None => self.own_family(name),
        }
    }

    fn own_family(&self, name: &Name) -> Option<Origin<'c>>
        ensures { option_map seen_origin result ≡ spec.own_family (seen_scope self.now) name.now }
    {
        match self.family {
            Some(family) if name.same(family) => Some(Origin::Own),
            _ => None,
        }
    }

    // The type of this name behind that of a facility.
    fn origin_through(&self, facility: &'c Name, name: &Name) -> Option<Origin<'c>>
        ensures { option_map seen_origin result ≡ spec.origin_through self.now.table.now (seen_scope self.now) facility.now name.now }
    {
        let declaration = self.facility_named(facility)?;
        if gives_type(self.table, declaration, name) {
            Some(Origin::Of(facility))
        } else {
            None
        }
    }

    /// The type that is written so; none where it is not known.
    pub fn origin(&self, ptype: &'c PType) -> Option<Origin<'c>>
        ensures { option_map seen_origin result ≡ spec.origin self.now.table.now (seen_scope self.now) ptype.now }
    {
        match &ptype.facility {
            Some(facility) => self.origin_through(facility, &ptype.name),
            None => self.origin_alone(&ptype.name),
        }
    }
}
