//! Descriptors, which say what a type's values are, and sorts.

ghost use Rattle.std.specs.Prelude.{◌≡◌, ◌↔◌, IfOk, IsTrue, map};
ghost use Rattle.math_terms.specs.Kinds.{forget, sort_of_desc, sort_of_shape};
ghost use Rattle.math_terms.specs.Sorts.{any, b, is_b, is_str, is_z, str, z};

use crate::name::NoMemory;
use crate::term::Term;
use crate::together::both;
use sqlite_items::{Boxed, Items};
use std::alloc::Global;

/// What the values of a type are: their shape, a constraint and an initial formula, both about `Var(0)`.
#[derive(Debug, Drop)]
#[cycle(descriptor)]
pub struct Desc {
    pub shape: Shape,
    pub constraint: Term,
    pub initial: Term,
}

/// The form of a type's values. `Param` counts the type formals of the component from 0.
#[derive(Debug, Drop)]
#[cycle(descriptor)]
pub enum Shape {
    Z,
    B,
    Str(Boxed<Desc>),
    Tup(Items<Desc>),
    Param(u32),
}

/// The sort of a term. `Any` is the sort of what the empty string would hold.
#[derive(Debug, Drop)]
pub enum Sort {
    Z,
    B,
    Str(Boxed<Sort>),
    Tup(Items<Sort>),
    Param(u32),
    Any,
}

impl Desc {
    /// A second descriptor, equal to the first.
    #[cycle(copy)]
    pub fn copy(&self, alloc: Global) -> Result<Desc, NoMemory>
        ensures { IfOk result (λ d. d ≡ self.now) }
    {
        let terms = both(self.constraint.copy(alloc), self.initial.copy(alloc));
        let (shape, (constraint, initial)) = both(self.shape.copy(alloc), terms)?;
        Ok(Desc {
            shape,
            constraint,
            initial,
        })
    }
}

impl Desc {
    /// The sort of the descriptor's values.
    #[cycle(sort)]
    pub fn sort(&self, alloc: Global) -> Result<Sort, NoMemory>
        ensures { IfOk result (λ s. s ≡ sort_of_desc self.now) }
    {
        self.shape.sort(alloc)
    }
}

impl Shape {
    /// A second shape, equal to the first.
    #[cycle(copy)]
    pub fn copy(&self, alloc: Global) -> Result<Shape, NoMemory>
        ensures { IfOk result (λ s. s ≡ self.now) }
    {
        match self {
            Shape::Z => Ok(Shape::Z),
            Shape::B => Ok(Shape::B),
            Shape::Str(entry) => {
                let entry = entry.get().copy(alloc)?;
                Ok(Shape::Str(Boxed::new(alloc, entry)?))
            }
            Shape::Tup(parts) => Ok(Shape::Tup(copy_descs(alloc, parts.as_slice())?)),
            Shape::Param(k) => Ok(Shape::Param(*k)),
        }
    }

    /// The sort of the values of this shape.
    #[cycle(sort)]
    fn sort(&self, alloc: Global) -> Result<Sort, NoMemory>
        ensures { IfOk result (λ s. s ≡ sort_of_shape self.now) }
    {
        match self {
            Shape::Z => Ok(Sort::Z),
            Shape::B => Ok(Sort::B),
            Shape::Str(entry) => {
                let entry = entry.get().sort(alloc)?;
                Ok(Sort::Str(Boxed::new(alloc, entry)?))
            }
            Shape::Tup(parts) => Ok(Sort::Tup(sorts_of(alloc, parts.as_slice())?)),
            Shape::Param(k) => Ok(Sort::Param(*k)),
        }
    }
}

/// The sorts of the values of descriptors, in their order.
#[cycle(sort)]
fn sorts_of(alloc: Global, descs: &[Desc]) -> Result<Items<Sort>, NoMemory>
    ensures { IfOk result (λ ss. ss ≡ map sort_of_desc descs.now) }
{
    let mut out = Items::new(alloc);
    for d in descs {
        out.push(d.sort(alloc)?)?;
    }
    Ok(out)
}

/// The descriptors of a slice once more, in their order.
#[cycle(copy)]
pub fn copy_descs(alloc: Global, descs: &[Desc]) -> Result<Items<Desc>, NoMemory>
    ensures { IfOk result (λ ds. ds ≡ descs.now) }
{
    let mut out = Items::new(alloc);
    for d in descs {
        out.push(d.copy(alloc)?)?;
    }
    Ok(out)
}

impl Sort {
    /// A second sort, equal to the first.
    #[cycle(copy_sort)]
    pub fn copy(&self, alloc: Global) -> Result<Sort, NoMemory>
        ensures { IfOk result (λ s. s ≡ self.now) }
    {
        match self {
            Sort::Z => Ok(Sort::Z),
            Sort::B => Ok(Sort::B),
            Sort::Str(entry) => {
                let entry = entry.get().copy(alloc)?;
                Ok(Sort::Str(Boxed::new(alloc, entry)?))
            }
            Sort::Tup(parts) => Ok(Sort::Tup(copy_sorts(alloc, parts.as_slice())?)),
            Sort::Param(k) => Ok(Sort::Param(*k)),
            Sort::Any => Ok(Sort::Any),
        }
    }

    /// The kind of what has the sort: the same, with strings that hold `Any`.
    #[cycle(forget)]
    pub(crate) fn kind(&self, alloc: Global) -> Result<Sort, NoMemory>
        ensures { IfOk result (λ s. s ≡ forget self.now) }
    {
        match self {
            Sort::Z => Ok(Sort::Z),
            Sort::B => Ok(Sort::B),
            Sort::Str(_) => string_kind(alloc),
            Sort::Tup(parts) => Ok(Sort::Tup(kinds_of_sorts(alloc, parts.as_slice())?)),
            Sort::Param(k) => Ok(Sort::Param(*k)),
            Sort::Any => Ok(Sort::Any),
        }
    }

    /// Whether this is the sort of numbers. `Any` is not.
    pub fn is_number(&self) -> bool
        ensures sort { IsTrue result ↔ (self.now ≡ z) }
        ensures form { result ≡ is_z self.now }
    {
        match self {
            Sort::Z => true,
            _ => false,
        }
    }

    /// Whether this is the sort of truth values. `Any` is not.
    pub fn is_truth(&self) -> bool
        ensures sort { IsTrue result ↔ (self.now ≡ b) }
        ensures form { result ≡ is_b self.now }
    {
        match self {
            Sort::B => true,
            _ => false,
        }
    }

    /// Whether this is the sort of strings of some sort. `Any` is not.
    pub fn is_string(&self) -> bool
        ensures { result ≡ is_str self.now }
    {
        match self {
            Sort::Str(_) => true,
            _ => false,
        }
    }
}

/// The sorts of a slice once more, in their order.
#[cycle(copy_sort)]
pub fn copy_sorts(alloc: Global, sorts: &[Sort]) -> Result<Items<Sort>, NoMemory>
    ensures { IfOk result (λ ss. ss ≡ sorts.now) }
{
    let mut out = Items::new(alloc);
    for s in sorts {
        out.push(s.copy(alloc)?)?;
    }
    Ok(out)
}

#[cycle(forget)]
fn kinds_of_sorts(alloc: Global, sorts: &[Sort]) -> Result<Items<Sort>, NoMemory>
    ensures { IfOk result (λ ss. ss ≡ map forget sorts.now) }
{
    let mut out = Items::new(alloc);
    for s in sorts {
        out.push(s.kind(alloc)?)?;
    }
    Ok(out)
}

/// The kind of strings.
pub(crate) fn string_kind(alloc: Global) -> Result<Sort, NoMemory>
    ensures { IfOk result (λ s. s ≡ str any) }
{
    Ok(Sort::Str(Boxed::new(alloc, Sort::Any)?))
}
