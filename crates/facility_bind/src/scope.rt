//! What the names of types and of constants mean at a place.

ghost use Rattle.std.specs.Prelude.{◌≡◌, ◌∷◌, [], None, Some, IfOk, OnOk, map};
ghost use Rattle.std.specs.Option.{option_copied, option_map, option_or};
ghost use Rattle.std.specs.List.{find, list_any};
ghost use Rattle.std.specs.Str.{bytes_eq};
ghost use Rattle.facility_bind.specs.Scopes as spec;

use crate::formals::{concept_in, declarations_of, own_concept, own_formals};
use math_terms::{Name, NoMemory, Term, both, with};
use module_table::{Table, is_array_template};
use res_ast::{
    Component, Concept, FacArg, FacDecl, Family, Formal, PType, TryCopy, copy_items, copy_option,
};
use sqlite_items::{Boxed, Items};
use std::alloc::Global;
use type_inst::{BoundFamily, FormalArg, TypeInst};

/// A name of a type, by itself or behind that of a facility, and the type that it means.
#[derive(Drop)]
pub struct TypeName {
    pub facility: Option<Name>,
    pub name: Name,
    pub meaning: TypeInst,
}

/// What is known at a place: what the names of formals mean, the other names of types, the families that these types are of, and the
/// names of the facilities that are declared.
#[derive(Drop)]
pub struct Scope {
    pub formals: Items<(Name, FormalArg)>,
    pub types: Items<TypeName>,
    pub families: Items<BoundFamily>,
    pub facilities: Items<Name>,
}

impl Scope {
    /// What a name means, by itself or behind that of a facility. None says that nothing declares it.
    pub fn known(
        &self,
        alloc: Global,
        facility: &Option<Name>,
        name: &Name,
    ) -> Result<Option<FormalArg>, NoMemory>
        ensures { IfOk result (λ o. o ≡ spec.known self.now facility.now name.now) }
    {
        match facility {
            None => self.known_alone(alloc, name),
            Some(_) => self.type_known(alloc, facility, name),
        }
    }

    fn known_alone(&self, alloc: Global, name: &Name) -> Result<Option<FormalArg>, NoMemory>
        ensures { IfOk result (λ o. o ≡ spec.known self.now None name.now) }
    {
        match formal_in(self.formals.as_slice(), name) {
            Some(formal) => Ok(Some(formal.1.copy(alloc)?)),
            None => self.type_alone(alloc, name),
        }
    }

    fn type_alone(&self, alloc: Global, name: &Name) -> Result<Option<FormalArg>, NoMemory>
        ensures { IfOk result (λ o. o ≡ option_map FormalArg.Type (option_or (spec.built_in name.now) (spec.type_among self.now.types None name.now))) }
    {
        match built_in(name) {
            Some(t) => Ok(Some(FormalArg::Type(t))),
            None => self.type_known(alloc, &None, name),
        }
    }

    fn type_known(
        &self,
        alloc: Global,
        facility: &Option<Name>,
        name: &Name,
    ) -> Result<Option<FormalArg>, NoMemory>
        ensures { IfOk result (λ o. o ≡ option_map FormalArg.Type (spec.type_among self.now.types facility.now name.now)) }
    {
        match find_type(self.types.as_slice(), facility, name) {
            Some(t) => Ok(Some(FormalArg::Type(t.meaning.copy(alloc)?))),
            None => Ok(None),
        }
    }

    /// The same, where a name that nothing declares is a type that counts as Integer.
    pub fn named(
        &self,
        alloc: Global,
        facility: &Option<Name>,
        name: &Name,
    ) -> Result<FormalArg, NoMemory>
        ensures { IfOk result (λ a. a ≡ spec.named self.now facility.now name.now) }
    {
        match self.known(alloc, facility, name)? {
            Some(arg) => Ok(arg),
            None => Ok(FormalArg::Type(TypeInst::Integer)),
        }
    }

    /// The type that a text means. One that nothing declares counts as Integer.
    pub fn type_of(&self, alloc: Global, t: &PType) -> Result<TypeInst, NoMemory>
        ensures { IfOk result (λ u. u ≡ spec.type_in self.now t.now) }
    {
        Ok(as_type(self.named(alloc, &t.facility, &t.name)?))
    }

    /// What an argument of a facility means: a literal is a number, a name what it stands for.
    pub fn argument(&self, alloc: Global, arg: &FacArg) -> Result<FormalArg, NoMemory>
        ensures { IfOk result (λ a. a ≡ spec.argument self.now arg.now) }
    {
        match arg {
            FacArg::OfType(t) => self.named(alloc, &t.facility, &t.name),
            FacArg::Number(_, n) => Ok(FormalArg::Number(Term::Num(*n))),
        }
    }

    /// What the arguments of a facility mean.
    pub(crate) fn arguments(
        &self,
        alloc: Global,
        args: &[FacArg],
    ) -> Result<Items<FormalArg>, NoMemory>
        ensures { IfOk result (λ out. out ≡ map (spec.argument self.now) args.now) }
    {
        let mut out = Items::new(alloc);
        for arg in args {
            out.push(self.argument(alloc, arg)?)?;
        }
        Ok(out)
    }

    /// What is given for formals, as far as formals and arguments go.
    pub(crate) fn given_to(
        &self,
        alloc: Global,
        formals: &[Formal],
        args: &[FacArg],
    ) -> Result<Items<(Name, FormalArg)>, NoMemory>
        ensures { IfOk result (λ out. out ≡ spec.given_to self.now formals.now args.now) }
    {
        let mut out = Items::new(alloc);
        let mut rest = args;
        for formal in formals {
            match rest {
                [arg, more @ ..] => {
                    out.push(both(formal.name.copy(alloc), self.argument(alloc, arg))?)?;
                    rest = more;
                }
                [] => return Ok(out),
            }
        }
        Ok(out)
    }

    /// Adds the type of an array, where the arguments give one.
    fn add_array(
        &mut self,
        alloc: Global,
        facility: &Name,
        arguments: Items<FormalArg>,
    ) -> Result<(), NoMemory>
        ensures { OnOk result (self.new ≡ spec.with_array self.old facility.now (spec.array_type arguments)) }
    {
        match array_type(alloc, arguments)? {
            Some(meaning) => self.add_array_type(alloc, facility, meaning),
            None => Ok(()),
        }
    }

    fn add_array_type(
        &mut self,
        alloc: Global,
        facility: &Name,
        meaning: TypeInst,
    ) -> Result<(), NoMemory>
        ensures { OnOk result (self.new ≡ spec.with_array self.old facility.now (Some meaning)) }
    {
        let array = array_type_name(alloc, facility, meaning)?;
        self.types.push(array)?;
        Ok(())
    }

    /// Adds the family of an instance.
    fn add_family(
        &mut self,
        alloc: Global,
        facility: &Option<Name>,
        path: &[Name],
        formals: &[(Name, FormalArg)],
        family: &Option<Family>,
    ) -> Result<(), NoMemory>
        ensures { OnOk result (self.new ≡ spec.with_family self.old facility.now path.now formals.now family.now) }
    {
        if let Some(family) = family {
            let meaning = type_name(alloc, facility, &family.name, path)?;
            self.types.push(meaning)?;
            self.families
                .push(bound_family(alloc, path, formals, family)?)?;
        }
        Ok(())
    }

    /// Adds what a declaration of a facility makes known. Of two facilities of one name the first is meant.
    fn add_facility(
        &mut self,
        alloc: Global,
        table: &Table,
        declaration: &FacDecl,
    ) -> Result<(), NoMemory>
        ensures { OnOk result (self.new ≡ spec.with_facility table.now self.old declaration.now) }
    {
        if has(self.facilities.as_slice(), &declaration.name) {
            return Ok(());
        }
        self.facilities.push(declaration.name.copy(alloc)?)?;
        self.add_types(alloc, table, declaration)
    }

    fn add_types(
        &mut self,
        alloc: Global,
        table: &Table,
        declaration: &FacDecl,
    ) -> Result<(), NoMemory>
        ensures { OnOk result (self.new ≡ spec.with_types table.now self.old declaration.now) }
    {
        if is_array_template(&declaration.concept) {
            let arguments = self.arguments(alloc, declaration.args.as_slice())?;
            return self.add_array(alloc, &declaration.name, arguments);
        }
        match concept_in(table, &declaration.concept) {
            Some(concept) => self.add_instance(alloc, declaration, concept),
            None => Ok(()),
        }
    }

    fn add_instance(
        &mut self,
        alloc: Global,
        declaration: &FacDecl,
        concept: &Concept,
    ) -> Result<(), NoMemory>
        ensures { OnOk result (self.new ≡ spec.with_instance self.old declaration.now (Some concept.now)) }
    {
        let formals = self.given_to(
            alloc,
            concept.formals.as_slice(),
            declaration.args.as_slice(),
        )?;
        let name = declaration.name.copy(alloc)?;
        let path = one(alloc, &declaration.name)?;
        self.add_family(
            alloc,
            &Some(name),
            path.as_slice(),
            formals.as_slice(),
            &concept.family,
        )
    }

    /// What these formals alone make known, and the family of their concept, under this path.
    pub(crate) fn of_family(
        alloc: Global,
        path: &[Name],
        formals: Items<(Name, FormalArg)>,
        family: &Option<Family>,
    ) -> Result<Scope, NoMemory>
        ensures { IfOk result (λ s. s ≡ spec.with_family (spec.formals_alone formals) None path.now formals family.now) }
    {
        let again = copy_items(alloc, formals.as_slice())?;
        let mut scope = Scope {
            formals,
            types: Items::new(alloc),
            families: Items::new(alloc),
            facilities: Items::new(alloc),
        };
        scope.add_family(alloc, &None, path, again.as_slice(), family)?;
        Ok(scope)
    }

    fn of_concept(alloc: Global, concept: Option<&Concept>) -> Result<Scope, NoMemory>
        ensures { IfOk result (λ s. s ≡ spec.concept_scope (option_copied concept.entry)) }
    {
        match concept {
            Some(concept) => {
                let formals = own_formals(alloc, concept.formals.as_slice())?;
                Scope::of_family(alloc, &[], formals, &concept.family)
            }
            None => Ok(Scope {
                formals: Items::new(alloc),
                types: Items::new(alloc),
                families: Items::new(alloc),
                facilities: Items::new(alloc),
            }),
        }
    }

    /// What is known in a component behind these of its declarations of facilities.
    pub fn behind(
        alloc: Global,
        table: &Table,
        component: &Component,
        declarations: &[FacDecl],
    ) -> Result<Scope, NoMemory>
        ensures { IfOk result (λ s. s ≡ spec.scope table.now component.now declarations.now) }
    {
        let mut scope = Scope::of_concept(alloc, own_concept(table, component))?;
        for declaration in declarations {
            scope.add_facility(alloc, table, declaration)?;
        }
        Ok(scope)
    }
}

const INTEGER: &[u8] = b"Integer";

const BOOLEAN: &[u8] = b"Boolean";

const INPUT: &[u8] = b"In_Stream";

const OUTPUT: &[u8] = b"Out_Stream";

const ARRAY: &[u8] = b"Static_Array";

/// The types that are there without a declaration.
#[tactic(auto, unfolding(crate::specs::Scopes::built_in))]
fn built_in(name: &Name) -> Option<TypeInst>
    ensures { result ≡ spec.built_in name.now }
{
    if name.bytes() == INTEGER {
        Some(TypeInst::Integer)
    } else if name.bytes() == BOOLEAN {
        Some(TypeInst::Boolean)
    } else if name.bytes() == INPUT {
        Some(TypeInst::In)
    } else if name.bytes() == OUTPUT {
        Some(TypeInst::Out)
    } else {
        None
    }
}

fn has(names: &[Name], name: &Name) -> bool
    ensures { result ≡ list_any (bytes_eq name.now) names.now }
{
    names.iter().any(|own| name.same(own))
}

/// The first formal of this name.
fn formal_in<'f>(formals: &'f [(Name, FormalArg)], name: &Name) -> Option<&'f (Name, FormalArg)>
    ensures { option_copied result ≡ find (λ p. bytes_eq name.now p.0) formals.now }
{
    for formal in formals {
        if name.same(&formal.0) {
            return Some(formal);
        }
    }
    None
}

/// The first type that is written so.
fn find_type<'t>(
    types: &'t [TypeName],
    facility: &Option<Name>,
    name: &Name,
) -> Option<&'t TypeName>
    ensures { option_copied result ≡ find (spec.is_written facility.now name.now) types.now }
{
    for t in types {
        if is_written(t, facility, name) {
            return Some(t);
        }
    }
    None
}

fn is_written(t: &TypeName, facility: &Option<Name>, name: &Name) -> bool
    ensures { result ≡ spec.is_written facility.now name.now t.now }
{
    is_behind(facility, &t.facility) && name.same(&t.name)
}

fn is_behind(facility: &Option<Name>, own: &Option<Name>) -> bool
    ensures { result ≡ spec.is_behind facility.now own.now }
{
    match facility {
        None => own.is_none(),
        Some(facility) => match own {
            Some(own) => facility.same(own),
            None => false,
        },
    }
}

/// The type that is meant. A constant counts as Integer.
fn as_type(arg: FormalArg) -> TypeInst
    ensures { result ≡ spec.as_type arg }
{
    match arg {
        FormalArg::Type(t) => t,
        FormalArg::Number(_) => TypeInst::Integer,
    }
}

/// The type of an array with these arguments, where they are a type and a number.
pub(crate) fn array_type(
    alloc: Global,
    arguments: Items<FormalArg>,
) -> Result<Option<TypeInst>, NoMemory>
    ensures { IfOk result (λ t. t ≡ spec.array_type arguments) }
{
    match arguments.as_slice() {
        [FormalArg::Type(entry), FormalArg::Number(size)] => {
            let (entry, size) = both(boxed_type(alloc, entry), size.copy(alloc))?;
            Ok(Some(TypeInst::Array(entry, size)))
        }
        _ => Ok(None),
    }
}

pub(crate) fn boxed_type(alloc: Global, t: &TypeInst) -> Result<Boxed<TypeInst>, NoMemory>
    ensures { IfOk result (λ u. u ≡ t.now) }
{
    Ok(Boxed::new(alloc, t.copy(alloc)?)?)
}

fn array_type_name(alloc: Global, facility: &Name, meaning: TypeInst) -> Result<TypeName, NoMemory>
    ensures { IfOk result (λ t. t ≡ spec.type_name (Some facility.now) spec.array_name meaning) }
{
    let names = both(facility.copy(alloc), array_name(alloc));
    let (names, meaning) = with(names, meaning)?;
    Ok(TypeName {
        facility: Some(names.0),
        name: names.1,
        meaning,
    })
}

/// The name of the type of arrays.
pub(crate) fn array_name(alloc: Global) -> Result<Name, NoMemory>
    ensures { IfOk result (λ name. name ≡ spec.array_name) }
{
    Name::new(alloc, ARRAY)
}

/// The list of one name.
pub(crate) fn one(alloc: Global, name: &Name) -> Result<Items<Name>, NoMemory>
    ensures { IfOk result (λ names. names ≡ name.now ∷ []) }
{
    let mut names = Items::new(alloc);
    names.push(name.copy(alloc)?)?;
    Ok(names)
}

fn type_name(
    alloc: Global,
    facility: &Option<Name>,
    name: &Name,
    path: &[Name],
) -> Result<TypeName, NoMemory>
    ensures { IfOk result (λ t. t ≡ spec.type_name facility.now name.now (spec.family_type path.now)) }
{
    let names = both(copy_option(alloc, facility), name.copy(alloc));
    let ((facility, name), path) = both(names, copy_items(alloc, path))?;
    Ok(TypeName {
        facility,
        name,
        meaning: TypeInst::Family(path),
    })
}

fn bound_family(
    alloc: Global,
    path: &[Name],
    formals: &[(Name, FormalArg)],
    family: &Family,
) -> Result<BoundFamily, NoMemory>
    ensures { IfOk result (λ f. f ≡ spec.bound_family path.now formals.now family.now) }
{
    let lists = both(copy_items(alloc, path), copy_items(alloc, formals));
    let (family, (path, formals)) = both(family.copy(alloc), lists)?;
    Ok(BoundFamily {
        path,
        family,
        formals,
    })
}
