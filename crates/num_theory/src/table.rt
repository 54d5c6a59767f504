//! Linear forms and first rows, as values.

use math_terms::{Items, NoMemory, RowName, Term};

/// A sum of products of coefficients and atoms, in the order of the atoms' texts, and a constant. No coefficient is 0.
#[derive(Debug, Drop)]
pub struct LinearForm {
    pub products: Items<(i32, Term)>,
    pub constant: i32,
}

/// Rows over atoms: each has a column for each atom in order, and then its constant. Each has the name at its place.
#[derive(Debug, Drop)]
pub struct RowTable {
    pub atoms: Items<Term>,
    pub rows: Items<Items<i32>>,
    pub names: Items<RowName>,
}

/// Why there is no table: it would have more than 63 atoms or more than 256 rows.
#[derive(Clone, Copy, Debug, PartialEq, Eq)]
pub enum RowError {
    TooMany,
    NoMemory,
}

impl From<NoMemory> for RowError {
    ghost use Rattle.std.specs.Prelude.{◌≡◌};
    ghost use Rattle.num_theory.specs.declared.table.RowError.TheVariants.{NoMemory};

    ghost from_gives = { λ _ e. e ≡ NoMemory };

    fn from(_error: NoMemory) -> RowError {
        RowError::NoMemory
    }
}
