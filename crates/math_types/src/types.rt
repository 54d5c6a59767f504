//! The sorts of types, and the parts that their values have.

ghost use Rattle.std.specs.Prelude.{◌≡◌, ◌++◌, [], IfOk, OnOk};
ghost use Rattle.std.specs.Option.{option_copied};
ghost use Rattle.std.specs.List.{find, zip};
ghost use Rattle.std.specs.Str.{bytes_eq};
ghost use Rattle.math_terms.specs.declared.descriptor.Sort.TheViews.{out-Sort};
ghost use Rattle.type_inst.specs.declared.types.TypeInst.TheViews.{out-TypeInst};
ghost use Rattle.type_inst.specs.Descriptors.{same_path};
ghost use Rattle.facility_bind.specs.Scopes.{family_type, type_in};
ghost use Rattle.math_types.specs.Types as spec;

use facility_bind::Scope;
use math_terms::{Name, NoMemory, Sort, both};
use res_ast::{MPart, PType, copy_items};
use sqlite_items::{Boxed, Items};
use std::alloc::Global;
use type_inst::{BoundFamily, FormalArg, TypeInst, desc_of};

/// The sort of the values of a type.
#[tactic(auto, unfolding(crate::specs::Types::sort))]
pub(crate) fn sort_of_type(
    alloc: Global,
    families: &[BoundFamily],
    t: &TypeInst,
) -> Result<Sort, NoMemory>
    ensures { IfOk result (λ s. s ≡ spec.sort families.now t.now) }
{
    let desc = Boxed::new(alloc, desc_of(alloc, t, families)?)?;
    desc.get().sort(alloc)
}

/// The type that a text means.
pub(crate) fn written(alloc: Global, scope: &Scope, t: &PType) -> Result<Boxed<TypeInst>, NoMemory>
    ensures { IfOk result (λ u. u ≡ type_in scope.now t.now) }
{
    Ok(Boxed::new(alloc, scope.type_of(alloc, t)?)?)
}

/// The own family as a type.
pub(crate) fn own_family(alloc: Global) -> Result<Boxed<TypeInst>, NoMemory>
    ensures { IfOk result (λ u. u ≡ family_type []) }
{
    Ok(Boxed::new(alloc, TypeInst::Family(Items::new(alloc)))?)
}

/// The parts of the values of a type, with their sorts.
#[tactic(auto, unfolding(crate::specs::Types::parts))]
pub(crate) fn parts_of(
    alloc: Global,
    families: &[BoundFamily],
    t: &TypeInst,
) -> Result<Items<(Name, Sort)>, NoMemory>
    ensures { IfOk result (λ ps. ps ≡ spec.parts families.now t.now) }
{
    let names = part_names(alloc, families, t)?;
    let sort = sort_of_type(alloc, families, t)?;
    let mut out = Items::new(alloc);
    add_pairs(alloc, &mut out, names.as_slice(), sorts_of_parts(&sort))?;
    Ok(out)
}

/// The sorts of the parts of a product.
fn sorts_of_parts(sort: &Sort) -> &[Sort]
    ensures { result.now ≡ spec.sorts_of_parts (out-Sort sort.now) }
{
    match sort {
        Sort::Tup(parts) => parts.as_slice(),
        _ => &[],
    }
}

/// Adds names with sorts, as far as both go.
fn add_pairs(
    alloc: Global,
    out: &mut Items<(Name, Sort)>,
    names: &[Name],
    sorts: &[Sort],
) -> Result<(), NoMemory>
    ensures { OnOk result (out.new ≡ out.old ++ zip names.now sorts.now) }
{
    match names {
        [] => Ok(()),
        [name, names @ ..] => match sorts {
            [] => Ok(()),
            [sort, sorts @ ..] => {
                out.push(both(name.copy(alloc), sort.copy(alloc))?)?;
                add_pairs(alloc, out, names, sorts)
            }
        },
    }
}

/// The names of the parts of a type's values.
fn part_names(
    alloc: Global,
    families: &[BoundFamily],
    t: &TypeInst,
) -> Result<Items<Name>, NoMemory>
    ensures { IfOk result (λ ns. ns ≡ spec.part_names families.now t.now) }
{
    let known = names_of_families(alloc, families)?;
    names_with(alloc, families, known.as_slice(), t)
}

/// The names of the parts of each family.
fn names_of_families(
    alloc: Global,
    families: &[BoundFamily],
) -> Result<Items<Items<Name>>, NoMemory>
    ensures { IfOk result (λ known. known ≡ spec.names_from families.now [] families.now) }
{
    let mut known = Items::new(alloc);
    for f in families {
        let names = names_of(alloc, families, known.as_slice(), f)?;
        known.push(names)?;
    }
    Ok(known)
}

/// The names of the parts of a family, where those of families before it are known.
fn names_of(
    alloc: Global,
    families: &[BoundFamily],
    known: &[Items<Name>],
    f: &BoundFamily,
) -> Result<Items<Name>, NoMemory>
    ensures { IfOk result (λ ns. ns ≡ spec.names_of families.now known.now f.now) }
{
    match f.family.model.parts.as_slice().last() {
        Some(part) => names_of_model(alloc, families, known, f.formals.as_slice(), part),
        None => Ok(Items::new(alloc)),
    }
}

/// The names of the parts of a model whose outermost part is this one.
fn names_of_model(
    alloc: Global,
    families: &[BoundFamily],
    known: &[Items<Name>],
    formals: &[(Name, FormalArg)],
    part: &MPart,
) -> Result<Items<Name>, NoMemory>
    ensures { IfOk result (λ ns. ns ≡ spec.names_of_model families.now known.now formals.now part.now) }
{
    match part {
        MPart::Prod(names) => copy_items(alloc, names.as_slice()),
        MPart::Param(name) => match find_type(formals, name) {
            Some(given) => names_given(alloc, families, known, &given.1),
            None => Ok(Items::new(alloc)),
        },
        _ => Ok(Items::new(alloc)),
    }
}

/// The names of the parts of what is given for a formal.
fn names_given(
    alloc: Global,
    families: &[BoundFamily],
    known: &[Items<Name>],
    arg: &FormalArg,
) -> Result<Items<Name>, NoMemory>
    ensures { IfOk result (λ ns. ns ≡ spec.names_given families.now known.now arg.now) }
{
    match arg {
        FormalArg::Type(t) => names_with(alloc, families, known, t),
        FormalArg::Number(_) => Ok(Items::new(alloc)),
    }
}

/// The names of the parts of a type, where those of the first families are known.
fn names_with(
    alloc: Global,
    families: &[BoundFamily],
    known: &[Items<Name>],
    t: &TypeInst,
) -> Result<Items<Name>, NoMemory>
    ensures { IfOk result (λ ns. ns ≡ spec.names_with families.now known.now (out-TypeInst t.now)) }
{
    match t {
        TypeInst::Family(path) => copy_items(alloc, names_among(families, known, path.as_slice())),
        _ => Ok(Items::new(alloc)),
    }
}

/// The names of the parts of the first family of that path.
fn names_among<'k>(families: &[BoundFamily], known: &'k [Items<Name>], path: &[Name]) -> &'k [Name]
    ensures { result.now ≡ spec.names_among families.now known.now path.now }
{
    match families {
        [] => &[],
        [f, fs @ ..] => match known {
            [] => &[],
            [names, more @ ..] => {
                if same_path(f.path.as_slice(), path) {
                    names.as_slice()
                } else {
                    names_among(fs, more, path)
                }
            }
        },
    }
}

fn same_path(a: &[Name], b: &[Name]) -> bool
    ensures { result ≡ same_path a.now b.now }
{
    match a {
        [] => b.is_empty(),
        [x, xs @ ..] => match b {
            [] => false,
            [y, ys @ ..] => same_name(x, y) && same_path(xs, ys),
        },
    }
}

fn same_name(a: &Name, b: &Name) -> bool
    ensures { result ≡ bytes_eq a.now b.now }
{
    a.same(b)
}

/// The type that is given for the first type formal of this name.
fn find_type<'f>(formals: &'f [(Name, FormalArg)], name: &Name) -> Option<&'f (Name, FormalArg)>
    ensures { option_copied result ≡ find (spec.is_type_of name.now) formals.now }
{
    for formal in formals {
        if is_type_of(formal, name) {
            return Some(formal);
        }
    }
    None
}

fn is_type_of(formal: &(Name, FormalArg), name: &Name) -> bool
    ensures { result ≡ spec.is_type_of name.now formal.now }
{
    match &formal.1 {
        FormalArg::Type(_) => formal.0.same(name),
        FormalArg::Number(_) => false,
    }
}
