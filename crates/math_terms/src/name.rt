//! Names, and the small types that certificates and conditions share.

ghost use Rattle.std.specs.Prelude.{◌≡◌, ◌↔◌, IfOk, IsTrue};

use std::alloc::{AllocError, Global};
use std::marker::Model;

/// Memory has run out.
#[derive(Clone, Copy, Debug, PartialEq, Eq)]
pub struct NoMemory;

impl From<AllocError> for NoMemory {
    fn from(_error: AllocError) -> NoMemory {
        NoMemory
    }
}

/// A name: bytes, of any number.
#[derive(Debug, Drop)]
pub struct Name {
    bytes: Vec<u8>,
}

impl Model for Name {
    ghost use Rattle.std.specs.Prelude.{List, ℕ};

    ghost Value = { List ℕ };

    ghost view = { λ n. n.bytes.items };
}

impl Name {
    /// The name with these bytes.
    pub fn new(alloc: Global, bytes: &[u8]) -> Result<Name, NoMemory>
        ensures { IfOk result (λ name. name ≡ bytes.now) }
    {
        match Vec::from_slice(alloc, bytes) {
            Ok(bytes) => Ok(Name { bytes }),
            Err(_) => Err(NoMemory),
        }
    }

    /// The name's bytes. This takes no memory.
    pub fn bytes(&self) -> &[u8]
        ensures { result.now ≡ self.now }
    {
        self.bytes.as_slice()
    }

    /// A second name with the same bytes.
    pub fn copy(&self, alloc: Global) -> Result<Name, NoMemory>
        ensures { IfOk result (λ name. name ≡ self.now) }
    {
        Name::new(alloc, self.bytes())
    }

    /// Whether two names have the same bytes.
    pub fn same(&self, other: &Name) -> bool
        ensures { IsTrue result ↔ (self.now ≡ other.now) }
    {
        self.bytes() == other.bytes()
    }
}

/// The name of a condition: of the component, of its part, and the number within the part, from 1.
#[derive(Debug, Drop)]
pub struct VcName {
    pub component: Name,
    pub part: Name,
    pub number: u32,
}

impl VcName {
    /// A second name, equal to the first.
    pub fn copy(&self, alloc: Global) -> Result<VcName, NoMemory>
        ensures { IfOk result (λ name. name ≡ self.now) }
    {
        Ok(VcName {
            component: self.component.copy(alloc)?,
            part: self.part.copy(alloc)?,
            number: self.number,
        })
    }
}

/// A row of linear arithmetic: that of a hypothesis, the second one of an equation that is a hypothesis,
/// that of an atom's fact, all counted from 1, and that of the negated goal.
#[derive(Clone, Copy, Debug, PartialEq, Eq)]
pub enum RowName {
    Hyp(u32),
    Second(u32),
    Atom(u32),
    Goal,
}

/// A new row: p times row i and q times row j, where rows are counted from 1.
#[derive(Clone, Copy, Debug, PartialEq, Eq)]
pub struct Line {
    pub p: i32,
    pub i: u32,
    pub q: i32,
    pub j: u32,
}

/// Why a term was refused: the result would have over 10,000 nodes, or the node of that number in post-order,
/// from 0, is the first without a sort.
#[derive(Clone, Copy, Debug, PartialEq, Eq)]
pub enum TermError {
    TooLarge,
    SortClash { node: u32 },
    NoMemory,
}

impl From<NoMemory> for TermError {
    ghost use Rattle.std.specs.Prelude.{◌≡◌};
    ghost use Rattle.math_terms.specs.declared.name.TermError.TheVariants.{NoMemory};

    ghost from_gives = { λ _ e. e ≡ NoMemory };

    fn from(_error: NoMemory) -> TermError {
        TermError::NoMemory
    }
}

impl From<AllocError> for TermError {
    ghost use Rattle.std.specs.Prelude.{◌≡◌};
    ghost use Rattle.math_terms.specs.declared.name.TermError.TheVariants.{NoMemory};

    ghost from_gives = { λ _ e. e ≡ NoMemory };

    fn from(_error: AllocError) -> TermError {
        TermError::NoMemory
    }
}
