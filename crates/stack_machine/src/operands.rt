//! The operands of a frame.

ghost use Rattle.std.specs.Prelude.{◌≡◌, [], ◌∷◌, OnOk, MatchOption};

use math_terms::NoMemory;
use source_meaning::Scalar;
use std::alloc::Global;
use std::marker::Model;

/// Operands, which contracts see as the list of them, the topmost first.
#[derive(Drop)]
pub struct Operands {
    scalars: Vec<Scalar>,
}

impl Model for Operands {
    ghost use Rattle.std.specs.Prelude.{List, reverse};
    ghost use Rattle.source_meaning.specs.declared.linked.Scalar.{Scalar};

    ghost Value = { List Scalar };

    ghost view = { λ o. reverse o.scalars.items };
}

impl Operands {
    /// No operands.
    pub fn new(alloc: Global) -> Operands
        ensures { result ≡ [] }
    {
        Operands {
            scalars: Vec::new(alloc),
        }
    }

    /// One operand more.
    pub fn push(&mut self, scalar: Scalar) -> Result<(), NoMemory>
        ensures { OnOk result (self.new ≡ scalar ∷ self.old) }
    {
        match self.scalars.push(scalar) {
            Ok(()) => Ok(()),
            Err(_) => Err(NoMemory),
        }
    }

    /// Takes the topmost operand.
    pub fn pop(&mut self) -> Option<Scalar>
        ensures { MatchOption result (self.old ≡ []) (λ top. self.old ≡ top ∷ self.new) }
    {
        self.scalars.pop()
    }
}
