//! What the values of a type are.

ghost use Rattle.std.specs.Prelude.{◌≡◌, IfOk};
ghost use Rattle.std.specs.Str.{bytes_eq};
ghost use Rattle.type_inst.specs.Descriptors as spec;

use crate::family::known_descs;
use crate::types::{BoundFamily, TypeInst};
use math_terms::{Desc, Name, NoMemory, Shape, Term, both, boxed, with};
use sqlite_items::Boxed;
use std::alloc::Global;

/// The descriptor of a type. Each family stands on those before it in `families`; one that is not held counts as Integer.
pub fn desc_of(alloc: Global, t: &TypeInst, families: &[BoundFamily]) -> Result<Desc, NoMemory>
    ensures { IfOk result (λ d. d ≡ spec.desc families.now t.now) }
{
    let known = known_descs(alloc, families)?;
    desc_with(alloc, t, families, known.as_slice())
}

/// The descriptor of a type, where the first of the families have these descriptors.
pub(crate) fn desc_with(
    alloc: Global,
    t: &TypeInst,
    families: &[BoundFamily],
    known: &[Desc],
) -> Result<Desc, NoMemory>
    ensures { IfOk result (λ d. d ≡ spec.desc_with (spec.among families.now known.now) t.now) }
{
    match t {
        TypeInst::Integer => integer(alloc),
        TypeInst::Boolean => boolean(alloc),
        TypeInst::In | TypeInst::Out => stream(alloc),
        TypeInst::Array(entry, size) => {
            let entry = Boxed::new(alloc, desc_with(alloc, entry.get(), families, known)?)?;
            array(alloc, entry, size)
        }
        TypeInst::Family(path) => among(alloc, families, known, path.as_slice()),
        TypeInst::Param(k) => parameter(alloc, *k),
    }
}

/// The descriptor of the first family of that path.
fn among(
    alloc: Global,
    families: &[BoundFamily],
    known: &[Desc],
    path: &[Name],
) -> Result<Desc, NoMemory>
    ensures { IfOk result (λ d. d ≡ spec.among families.now known.now path.now) }
{
    match families {
        [] => integer(alloc),
        [f, fs @ ..] => match known {
            [] => integer(alloc),
            [d, ds @ ..] => {
                if same_path(f.path.as_slice(), path) {
                    d.copy(alloc)
                } else {
                    among(alloc, fs, ds, path)
                }
            }
        },
    }
}

fn same_path(a: &[Name], b: &[Name]) -> bool
    ensures { result ≡ spec.same_path a.now b.now }
{
    match a {
        [] => b.is_empty(),
        [x, xs @ ..] => match b {
            [] => false,
            [y, ys @ ..] => same_name(x, y) && same_path(xs, ys),
        },
    }
}

fn same_name(a: &Name, b: &Name) -> bool
    ensures { result ≡ bytes_eq a.now b.now }
{
    a.same(b)
}

/// The descriptor of Integer.
pub(crate) fn integer(alloc: Global) -> Result<Desc, NoMemory>
    ensures { IfOk result (λ d. d ≡ spec.integer) }
{
    let (constraint, initial) = both(bounds(alloc), equal(alloc, Term::Var(0), Term::Num(0)))?;
    Ok(Desc {
        shape: Shape::Z,
        constraint,
        initial,
    })
}

fn bounds(alloc: Global) -> Result<Term, NoMemory>
    ensures { IfOk result (λ t. t ≡ spec.both (spec.at_most Term.MinInt spec.value) (spec.at_most spec.value Term.MaxInt)) }
{
    let low = at_most(alloc, Term::MinInt, Term::Var(0));
    let (low, high) = both(low, at_most(alloc, Term::Var(0), Term::MaxInt))?;
    Ok(Term::And(low, high))
}

fn at_most(alloc: Global, a: Term, b: Term) -> Result<Boxed<Term>, NoMemory>
    ensures { IfOk result (λ t. t ≡ spec.at_most a b) }
{
    let (a, b) = both(boxed(alloc, a), boxed(alloc, b))?;
    boxed(alloc, Term::LessEq(a, b))
}

fn equal(alloc: Global, a: Term, b: Term) -> Result<Term, NoMemory>
    ensures { IfOk result (λ t. t ≡ spec.equal a b) }
{
    let (a, b) = both(boxed(alloc, a), boxed(alloc, b))?;
    Ok(Term::Eq(a, b))
}

fn boolean(alloc: Global) -> Result<Desc, NoMemory>
    ensures { IfOk result (λ d. d ≡ spec.boolean) }
{
    let initial = equal(alloc, Term::Var(0), Term::Truth(false))?;
    Ok(Desc {
        shape: Shape::B,
        constraint: Term::Truth(true),
        initial,
    })
}

fn stream(alloc: Global) -> Result<Desc, NoMemory>
    ensures { IfOk result (λ d. d ≡ spec.stream) }
{
    let entry = Boxed::new(alloc, integer(alloc)?)?;
    let (initial, entry) = with(equal(alloc, Term::Var(0), Term::Empty), entry)?;
    Ok(Desc {
        shape: Shape::Str(entry),
        constraint: Term::Truth(true),
        initial,
    })
}

fn array(alloc: Global, entry: Boxed<Desc>, size: &Term) -> Result<Desc, NoMemory>
    ensures { IfOk result (λ d. d ≡ spec.array entry size.now) }
{
    let formulas = both(sized(alloc, size), sized(alloc, size));
    let ((constraint, initial), entry) = with(formulas, entry)?;
    Ok(Desc {
        shape: Shape::Str(entry),
        constraint,
        initial,
    })
}

fn sized(alloc: Global, size: &Term) -> Result<Term, NoMemory>
    ensures { IfOk result (λ t. t ≡ spec.sized size.now) }
{
    let (length, size) = both(length_of_value(alloc), boxed_copy(alloc, size))?;
    Ok(Term::Eq(length, size))
}

fn length_of_value(alloc: Global) -> Result<Boxed<Term>, NoMemory>
    ensures { IfOk result (λ t. t ≡ Term.Len spec.value) }
{
    let value = boxed(alloc, Term::Var(0))?;
    boxed(alloc, Term::Len(value))
}

fn boxed_copy(alloc: Global, t: &Term) -> Result<Boxed<Term>, NoMemory>
    ensures { IfOk result (λ b. b ≡ t.now) }
{
    boxed(alloc, t.copy(alloc)?)
}

fn parameter(alloc: Global, k: u32) -> Result<Desc, NoMemory>
    ensures { IfOk result (λ d. d ≡ spec.parameter k) }
{
    let value = boxed(alloc, Term::Var(0))?;
    Ok(Desc {
        shape: Shape::Param(k),
        constraint: Term::Truth(true),
        initial: Term::Initial(k, value),
    })
}
