//! The words on terms in cells. `load:ROOM` says at which places of so many cells the terms come to stand. `cell_same`, `cell_before`,
//! `cell_number`, `cell_truth` and `cell_nodes:MOST` answer of the latest terms in 1,000 cells. `cell_test:NODES` takes the terms as a sequent in
//! cells, in room for so many nodes, and asks whether the latest step, which is linear, refutes its rows.

ghost use Rattle.std.specs.Prelude.{◌≡◌, ◌<◌, ◌^◌};

use crate::board::Board;
use crate::saying::{say, say_number, say_truth};
use crate::trouble::Trouble;
use crate::words::count;
use cell_rows::{CellSequent, Room};
use cert_form::Step;
use math_terms::{Boxed, Line, RowName, Term};
use sqlite_items::Items;
use std::alloc::Global;
use term_cells::{Cells, Scratch};

const ROOM: usize = 1000;

/// Cells, and the places of what was loaded into them.
#[derive(Drop)]
struct Loaded {
    cells: Cells,
    places: Items<u32>,
}

impl Loaded {
    // Loads terms one after another.
    fn load(&mut self, terms: &[Boxed<Term>]) -> Result<(), Trouble> {
        for t in terms {
            match self.cells.load(t.get()) {
                Some(place) => self.places.push(place)?,
                None => return Err(Trouble::NotUnderstood),
            }
        }
        Ok(())
    }

    // The latest place.
    fn last(&self) -> Result<u32, Trouble> {
        self.places
            .as_slice()
            .last()
            .copied()
            .ok_or(Trouble::NotUnderstood)
    }

    // The latest two places.
    fn last_two(&self) -> Result<(u32, u32), Trouble> {
        match self.places.as_slice() {
            [.., p, q] => Ok((*p, *q)),
            _ => Err(Trouble::NotUnderstood),
        }
    }

    // The latest place as a goal, and the others as hypotheses.
    fn goal_and_hyps(&self) -> Result<(u32, &[u32]), Trouble> {
        match self.places.as_slice() {
            [hyps @ .., goal] => Ok((*goal, hyps)),
            [] => Err(Trouble::NotUnderstood),
        }
    }

    fn say_same(&self, said: &mut String) -> Result<(), Trouble> {
        let (p, q) = self.last_two()?;
        say_truth(said, self.cells.same(p, q))
    }

    fn say_before(&self, alloc: Global, said: &mut String) -> Result<(), Trouble> {
        let (p, q) = self.last_two()?;
        let mut scratch = Scratch::new(alloc, ROOM)?;
        say_truth(said, self.cells.before(p, q, &mut scratch))
    }

    fn say_nodes(&self, said: &mut String, most: u32) -> Result<(), Trouble> {
        let p = self.last()?;
        let most = most.min(1_000_000);
        say_number(said, i64::from(self.cells.nodes_up_to(p, most)))
    }
}

fn load_all(alloc: Global, terms: &[Boxed<Term>]) -> Result<Loaded, Trouble> {
    let mut loaded = Loaded {
        cells: Cells::new(alloc, ROOM)?,
        places: Items::new(alloc),
    };
    loaded.load(terms)?;
    Ok(loaded)
}

fn say_places(
    alloc: Global,
    said: &mut String,
    terms: &[Boxed<Term>],
    room: u32,
) -> Result<(), Trouble> {
    let mut cells = Cells::new(alloc, room as usize)?;
    for t in terms {
        match cells.load(t.get()) {
            Some(place) => say_number(said, i64::from(place))?,
            None => say(said, "none")?,
        }
    }
    Ok(())
}

fn say_test(
    room: &mut Room,
    said: &mut String,
    nodes: usize,
    sequent: &CellSequent,
    rows: &[RowName],
    lines: &[Line],
) -> Result<(), Trouble>
    requires room { room.old ≡ nodes }
    requires small { nodes < 2 ^ 31 }
{
    if sequent.cells.held() > 2 * nodes {
        return Err(Trouble::NotUnderstood);
    }
    match room.linear_test(sequent, rows, lines) {
        Ok(refuted) => say_truth(said, refuted),
        Err(_) => say(said, "short"),
    }
}

impl Board {
    fn in_cells(&self) -> Result<Loaded, Trouble> {
        load_all(self.alloc, self.terms.as_slice())
    }

    fn say_cell_same(&self, said: &mut String) -> Result<(), Trouble> {
        let loaded = self.in_cells()?;
        loaded.say_same(said)
    }

    fn say_cell_before(&self, said: &mut String) -> Result<(), Trouble> {
        let loaded = self.in_cells()?;
        loaded.say_before(self.alloc, said)
    }

    fn say_number_in(&self, said: &mut String, loaded: &Loaded) -> Result<(), Trouble> {
        let p = loaded.last()?;
        say_truth(said, loaded.cells.is_number(p, self.variables.as_slice()))
    }

    fn say_cell_number(&self, said: &mut String) -> Result<(), Trouble> {
        let loaded = self.in_cells()?;
        self.say_number_in(said, &loaded)
    }

    fn say_truth_in(&self, said: &mut String, loaded: &Loaded) -> Result<(), Trouble> {
        let p = loaded.last()?;
        say_truth(said, loaded.cells.is_truth(p, self.variables.as_slice()))
    }

    fn say_cell_truth(&self, said: &mut String) -> Result<(), Trouble> {
        let loaded = self.in_cells()?;
        self.say_truth_in(said, &loaded)
    }

    fn say_cell_nodes(&self, said: &mut String, rest: &str) -> Result<(), Trouble> {
        let most = count(rest)?;
        let loaded = self.in_cells()?;
        loaded.say_nodes(said, most)
    }

    // The rows and lines of the latest step.
    fn linear_step(&self) -> Result<(&[RowName], &[Line]), Trouble> {
        match self.steps.as_slice().last() {
            Some(Step::Linear { rows, lines }) => Ok((rows.as_slice(), lines.as_slice())),
            _ => Err(Trouble::NotUnderstood),
        }
    }

    fn say_test_in(&self, said: &mut String, nodes: usize, loaded: &Loaded) -> Result<(), Trouble>
        requires { nodes < 2 ^ 31 }
    {
        let (goal, hyps) = loaded.goal_and_hyps()?;
        let (rows, lines) = self.linear_step()?;
        let sequent = CellSequent {
            cells: &loaded.cells,
            vars: self.variables.as_slice(),
            hyps,
            goal,
        };
        let mut room = Room::new(self.alloc, nodes)?;
        say_test(&mut room, said, nodes, &sequent, rows, lines)
    }

    fn say_cell_test(&self, said: &mut String, rest: &str) -> Result<(), Trouble> {
        let nodes = count(rest)?;
        let loaded = self.in_cells()?;
        self.say_test_in(said, nodes.min(1_000_000) as usize, &loaded)
    }

    fn say_load(&self, said: &mut String, rest: &str) -> Result<(), Trouble> {
        let room = count(rest)?;
        say_places(self.alloc, said, self.terms.as_slice(), room)
    }

    /// Whether the word is one on cells, which is done.
    pub fn calls_with_cells(
        &self,
        said: &mut String,
        name: &str,
        rest: &str,
    ) -> Result<bool, Trouble> {
        let done = match name {
            "load" => self.say_load(said, rest),
            "cell_same" => self.say_cell_same(said),
            "cell_before" => self.say_cell_before(said),
            "cell_number" => self.say_cell_number(said),
            "cell_truth" => self.say_cell_truth(said),
            "cell_nodes" => self.say_cell_nodes(said, rest),
            "cell_test" => self.say_cell_test(said, rest),
            _ => return Ok(false),
        };
        done?;
        Ok(true)
    }
}
