//! Laws of growth and of counts, for proofs over every run of calls.

ghost use Rattle.std.specs.Prelude.{[], ◌++◌, ◌≤◌, List, Option, ℕ};
ghost use Rattle.edge_io.specs.Faults.{Rose};
ghost use Rattle.edge_io.specs.Held.{Grew, GrewByPrefix};

/// A sink that no call was made on has grown by nothing.
pub fn unchanged()
    ensures { (held : Option (List ℕ)) → Grew held held [] }
{}

/// What two runs of calls append is appended in their order.
pub fn growth_composes()
    ensures { (a b c : Option (List ℕ)) (p q : List ℕ) → Grew a b p → Grew b c q → Grew a c (p ++ q) }
{}

/// After a run that wrote all, one that stopped within its piece has written a prefix of both.
pub fn growth_then_prefix()
    ensures { (a b c : Option (List ℕ)) (p q : List ℕ) → Grew a b p → GrewByPrefix b c q → GrewByPrefix a c (p ++ q) }
{}

/// What was written whole is a prefix of whatever was to follow it.
pub fn growth_is_prefix()
    ensures { (a b : Option (List ℕ)) (p q : List ℕ) → Grew a b p → GrewByPrefix a b (p ++ q) }
{}

/// A run that wrote nothing after the other changes nothing of what it wrote.
pub fn growth_then_nothing()
    ensures { (a b c : Option (List ℕ)) (p : List ℕ) → Grew a b p → Grew b c [] → Grew a c p }
{}

/// A count that rose in some call of a run rose in the run.
pub fn rise_lasts()
    ensures { (a b c d : ℕ) → a ≤ b → Rose b c → c ≤ d → Rose a d }
{}
