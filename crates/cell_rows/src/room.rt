//! When lines refute the named rows of a sequent whose formulas stand in cells, in room that was taken before.

ghost use Rattle.std.specs.Prelude.{◌≡◌, ◌+◌, ◌*◌, ◌^◌, ◌<◌, ◌≤◌, List, IfOk, OnErr, length, map, sum};
ghost use Rattle.math_terms.specs.declared.term.Term.{Term};
ghost use Rattle.math_terms.specs.Terms.{nodes};
ghost use Rattle.num_theory.specs.Naming.{linear_test};
ghost use Rattle.term_cells.specs.KindShown.{sorts_of_vars};
ghost use Rattle.cell_rows.specs.Sequents.{StandsIn};

use crate::difference::Short;
use crate::sequent::CellSequent;
use crate::sheet::Sheet;
use math_terms::{Line, NoMemory, RowName};
use std::alloc::Global;
use std::marker::Model;

/// Room for the linear tests of sequents with so many nodes, 64 of which stand for a row that is named or appended. A contract sees how
/// many nodes it is for.
#[derive(Debug, Drop)]
pub struct Room {
    nodes: usize,
    sheet: Sheet,
    atoms: Vec<u32>,
    used: Vec<bool>,
    rows: Vec<[i32; 64]>,
}

impl Model for Room {
    ghost use Rattle.std.specs.Prelude.{ℕ, ◌≡◌, ◌+◌, ◌*◌, ◌<◌, length};

    ghost Value = { ℕ };

    ghost view = { λ r. r.nodes };

    ghost invariant = { λ r. (r.sheet.scratch ≡ 2 * r.nodes) × (length r.sheet.marks.items ≡ r.nodes) × (length r.atoms.items ≡ 2 * r.nodes) × (length r.used.items ≡ 2 * r.nodes) × (r.nodes < 64 * length r.rows.items + 64) };
}

impl Room {
    /// Room for so many nodes.
    pub fn new(alloc: Global, nodes: usize) -> Result<Room, NoMemory>
        requires { nodes < 2 ^ 31 }
        ensures { IfOk result (λ r. r ≡ nodes) }
    {
        Ok(Room {
            nodes,
            sheet: Sheet::new(alloc, 2 * nodes, nodes)?,
            atoms: vec![in alloc; 0; 2 * nodes]?,
            used: vec![in alloc; false; 2 * nodes]?,
            rows: vec![in alloc; [0; 64]; nodes / 64]?,
        })
    }

    /// Whether the lines refute the named rows of the sequent. This takes no memory. There is no answer where the room is too small.
    pub fn linear_test(
        &mut self,
        sequent: &CellSequent,
        names: &[RowName],
        lines: &[Line],
    ) -> Result<bool, Short>
        requires { length sequent.now.cells.now.0 ≤ 2 * self.old }
        ensures kept { self.new ≡ self.old }
        ensures exact { (hs : List Term) (g : Term) → StandsIn sequent.now hs g → IfOk result (λ b. b ≡ linear_test (sorts_of_vars sequent.now.vars.now) hs g names.now lines.now) }
        ensures short { (hs : List Term) (g : Term) → StandsIn sequent.now hs g → OnErr result (self.old < sum (map nodes hs) + nodes g + 64 * (length names.now + length lines.now)) }
    {
        sequent.is_refuted(
            names,
            lines,
            &mut self.sheet,
            &mut self.atoms,
            &mut self.used,
            &mut self.rows,
        )
    }
}
