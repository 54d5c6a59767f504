//! Types whose formals are bound.

ghost use Rattle.std.specs.Prelude.{◌≡◌, IfOk};

use math_terms::{Name, NoMemory, Term, both};
use res_ast::{Family, TryCopy, copy_items};
use sqlite_items::{Boxed, Items};
use std::alloc::Global;

/// A type of a program. An array has its entries' type and its size, a number or the variable of an Integer formal; a family
/// is named by the path of its instance; `Param` counts the type formals of the component from 0.
#[derive(Drop)]
pub enum TypeInst {
    Integer,
    Boolean,
    In,
    Out,
    Array(Boxed<TypeInst>, Term),
    Family(Items<Name>),
    Param(u32),
}

/// What is given for a formal of a concept.
#[derive(Drop)]
pub enum FormalArg {
    Type(TypeInst),
    Number(Term),
}

/// The family of an instance of a concept, with what is given for each formal, in the order of the formals.
#[derive(Drop)]
pub struct BoundFamily {
    pub path: Items<Name>,
    pub family: Family,
    pub formals: Items<(Name, FormalArg)>,
}

impl TryCopy for TypeInst {
    fn copy(&self, alloc: Global) -> Result<TypeInst, NoMemory> {
        copy_type(alloc, self)
    }
}

fn copy_type(alloc: Global, t: &TypeInst) -> Result<TypeInst, NoMemory>
    ensures { IfOk result (λ u. u ≡ t.now) }
{
    match t {
        TypeInst::Integer => Ok(TypeInst::Integer),
        TypeInst::Boolean => Ok(TypeInst::Boolean),
        TypeInst::In => Ok(TypeInst::In),
        TypeInst::Out => Ok(TypeInst::Out),
        TypeInst::Array(entry, size) => {
            let entry = Boxed::new(alloc, copy_type(alloc, entry.get())?)?;
            Ok(TypeInst::Array(entry, size.copy(alloc)?))
        }
        TypeInst::Family(path) => Ok(TypeInst::Family(copy_items(alloc, path.as_slice())?)),
        TypeInst::Param(k) => Ok(TypeInst::Param(*k)),
    }
}

impl TryCopy for FormalArg {
    fn copy(&self, alloc: Global) -> Result<FormalArg, NoMemory> {
        match self {
            FormalArg::Type(t) => Ok(FormalArg::Type(t.copy(alloc)?)),
            FormalArg::Number(n) => Ok(FormalArg::Number(n.copy(alloc)?)),
        }
    }
}

impl TryCopy for BoundFamily {
    fn copy(&self, alloc: Global) -> Result<BoundFamily, NoMemory> {
        let lists = both(
            copy_items(alloc, self.path.as_slice()),
            copy_items(alloc, self.formals.as_slice()),
        );
        let (family, (path, formals)) = both(self.family.copy(alloc), lists)?;
        Ok(BoundFamily {
            path,
            family,
            formals,
        })
    }
}
