//! The words that call something with terms. Those on one term leave it: `text` writes it, `copy` says whether a copy is the same,
//! `truth`, `nodes:MOST`, `sort`, `kind` and `linear` answer of it. `same` takes the latest two and says whether they are the same, `substitute:K` puts the
//! latest for variable K in the one before, and leaves the result. `at:1,2` writes the subterm at a position and `mentions:K` says whether variable K stands in it;
//! `replaced:1,2` puts the latest term at a position of the one before. `rows` and `refute` take all terms as formulas.

use crate::board::Board;
use crate::lists::on_heap;
use crate::saying::{
    say, say_lines, say_number, say_row, say_row_name, say_sort, say_term, say_terms, say_truth,
};
use crate::trouble::Trouble;
use crate::words::{count, parsed_list};
use linear_prover::{Multipliers, RefuteError, refute};
use math_terms::{Position, Sort, Term, TermError, kind_of, replaced, sort_of, substitute, truth};
use num_theory::{LinearForm, RowError, RowTable, linear, rows};
use std::alloc::Global;

// Terms of so many nodes at most are given to calls that number nodes.
const MOST_NODES: u32 = 100_000;

// Formulas, so many at most, are given to calls that number formulas.
const MOST_FORMULAS: usize = 1_000_000;

// A copy of the position of these numbers.
fn position(alloc: Global, rest: &str) -> Result<Position, Trouble> {
    let places = parsed_list::<u32>(alloc, rest)?;
    let position = Position::new(alloc, places.as_slice())?;
    Ok(position.copy(alloc)?)
}

fn say_refusal(said: &mut String, e: TermError) -> Result<(), Trouble> {
    match e {
        TermError::TooLarge => say(said, "too large"),
        TermError::SortClash { node } => {
            say(said, "clash at")?;
            say_number(said, i64::from(node))
        }
        TermError::NoMemory => Err(Trouble::NoMemory),
    }
}

fn say_sort_of(alloc: Global, said: &mut String, t: &Term, sorts: &[Sort]) -> Result<(), Trouble> {
    if t.nodes_up_to(MOST_NODES) > MOST_NODES {
        return Err(Trouble::NotUnderstood);
    }
    match sort_of(alloc, t, sorts) {
        Ok(sort) => say_sort(said, &sort),
        Err(e) => say_refusal(said, e),
    }
}

fn say_truth_of(alloc: Global, said: &mut String, t: &Term) -> Result<(), Trouble> {
    match truth(alloc, t)? {
        Some(b) => say_truth(said, b),
        None => say(said, "none"),
    }
}

fn say_form(alloc: Global, said: &mut String, form: &LinearForm) -> Result<(), Trouble> {
    for product in form.products.as_slice() {
        say_number(said, i64::from(product.0))?;
        say(said, "*")?;
        say_term(alloc, said, &product.1)?;
        say(said, "+")?;
    }
    say_number(said, i64::from(form.constant))
}

fn say_linear(alloc: Global, said: &mut String, t: &Term) -> Result<(), Trouble> {
    match linear(alloc, t)? {
        Some(form) => say_form(alloc, said, &form),
        None => say(said, "none"),
    }
}

fn say_table(alloc: Global, said: &mut String, table: &RowTable) -> Result<(), Trouble> {
    say_terms(alloc, said, table.atoms.as_slice())?;
    for row in table.rows.as_slice() {
        say_row(said, row.as_slice())?;
    }
    for name in table.names.as_slice() {
        say_row_name(said, *name)?;
    }
    Ok(())
}

fn say_refutation(
    said: &mut String,
    found: Result<Multipliers, RefuteError>,
) -> Result<(), Trouble> {
    match found {
        Ok(found) => say_lines(said, found.lines.as_slice()),
        Err(RefuteError::NoRefutation) => say(said, "no refutation"),
        Err(RefuteError::NoMemory) => Err(Trouble::NoMemory),
    }
}

fn say_row_error(said: &mut String, e: RowError) -> Result<(), Trouble> {
    match e {
        RowError::TooMany => say(said, "too many"),
        RowError::NoMemory => Err(Trouble::NoMemory),
    }
}

fn say_rows(
    alloc: Global,
    said: &mut String,
    sorts: &[Sort],
    formulas: &[Term],
) -> Result<(), Trouble> {
    if formulas.len() > MOST_FORMULAS {
        return Err(Trouble::NotUnderstood);
    }
    match rows(alloc, sorts, formulas) {
        Ok(table) => say_table(alloc, said, &table),
        Err(e) => say_row_error(said, e),
    }
}

fn say_refuted(
    alloc: Global,
    said: &mut String,
    sorts: &[Sort],
    formulas: &[Term],
) -> Result<(), Trouble> {
    if formulas.len() > MOST_FORMULAS {
        return Err(Trouble::NotUnderstood);
    }
    match rows(alloc, sorts, formulas) {
        Ok(table) => say_refutation(said, refute(alloc, &table)),
        Err(e) => say_row_error(said, e),
    }
}

impl Board {
    fn say_rows(&mut self, said: &mut String) -> Result<(), Trouble> {
        let sorts = self.sorts()?;
        let formulas = self.formulas()?;
        say_rows(self.alloc, said, sorts.as_slice(), formulas.as_slice())
    }

    fn say_lines(&mut self, said: &mut String) -> Result<(), Trouble> {
        let sorts = self.sorts()?;
        let formulas = self.formulas()?;
        say_refuted(self.alloc, said, sorts.as_slice(), formulas.as_slice())
    }

    // Puts the latest term for a variable in the one before it.
    fn substitute(&mut self, said: &mut String, rest: &str) -> Result<(), Trouble> {
        let k = count(rest)?;
        let by = self.take()?;
        let t = self.take()?;
        match substitute(self.alloc, t.get(), k, by.get()) {
            Ok(put) => self.put(put),
            Err(e) => say_refusal(said, e),
        }
    }

    // Puts the latest term at a position of the one before it.
    fn replace(&mut self, said: &mut String, rest: &str) -> Result<(), Trouble> {
        let position = position(self.alloc, rest)?;
        let by = self.take()?;
        let t = self.take()?;
        match replaced(self.alloc, t.get(), &position, by.get()) {
            Ok(Some(put)) => self.put(put),
            Ok(None) => say(said, "none"),
            Err(e) => say_refusal(said, e),
        }
    }

    fn say_at(&self, said: &mut String, rest: &str) -> Result<(), Trouble> {
        let position = position(self.alloc, rest)?;
        let t = self.latest()?;
        match t.at(&position) {
            Some(t) => say_term(self.alloc, said, t),
            None => say(said, "none"),
        }
    }

    // Whether the latest two terms are the same.
    fn say_same(&mut self, said: &mut String) -> Result<(), Trouble> {
        let b = self.take()?;
        let a = self.take()?;
        say_truth(said, a.get().same(b.get()))
    }

    // Whether a copy of the latest term is the same.
    fn say_copy(&self, said: &mut String) -> Result<(), Trouble> {
        let t = self.latest()?;
        let copied = on_heap(self.alloc, t.copy(self.alloc))?;
        say_truth(said, copied.get().same(t))
    }

    /// The latest term.
    pub fn latest(&self) -> Result<&Term, Trouble> {
        match self.terms.as_slice().last() {
            Some(t) => Ok(t.get()),
            None => Err(Trouble::NotUnderstood),
        }
    }

    fn say_kind(&self, said: &mut String) -> Result<(), Trouble> {
        let sorts = self.sorts()?;
        let kind = kind_of(self.alloc, self.latest()?, sorts.as_slice())?;
        say_sort(said, &kind)
    }

    fn say_sort(&self, said: &mut String) -> Result<(), Trouble> {
        let sorts = self.sorts()?;
        say_sort_of(self.alloc, said, self.latest()?, sorts.as_slice())
    }

    fn say_nodes(&self, said: &mut String, rest: &str) -> Result<(), Trouble> {
        let most = count(rest)?;
        if most > MOST_NODES {
            return Err(Trouble::NotUnderstood);
        }
        say_number(said, i64::from(self.latest()?.nodes_up_to(most)))
    }

    fn say_text(&self, said: &mut String) -> Result<(), Trouble> {
        let t = self.latest()?;
        say_term(self.alloc, said, t)
    }

    fn say_truth(&self, said: &mut String) -> Result<(), Trouble> {
        let t = self.latest()?;
        say_truth_of(self.alloc, said, t)
    }

    fn say_linear(&self, said: &mut String) -> Result<(), Trouble> {
        let t = self.latest()?;
        say_linear(self.alloc, said, t)
    }

    fn say_mentions(&self, said: &mut String, rest: &str) -> Result<(), Trouble> {
        let v = count(rest)?;
        let t = self.latest()?;
        say_truth(said, t.mentions(v))
    }

    // Whether the word asks of the latest term, which is answered.
    fn asks_of_latest(&self, said: &mut String, name: &str, rest: &str) -> Result<bool, Trouble> {
        let done = match name {
            "text" => self.say_text(said),
            "copy" => self.say_copy(said),
            "truth" => self.say_truth(said),
            "nodes" => self.say_nodes(said, rest),
            "sort" => self.say_sort(said),
            "kind" => self.say_kind(said),
            "linear" => self.say_linear(said),
            "at" => self.say_at(said, rest),
            "mentions" => self.say_mentions(said, rest),
            _ => return Ok(false),
        };
        done?;
        Ok(true)
    }

    /// Whether the word calls something with terms, which is done.
    pub fn calls_with_terms(
        &mut self,
        said: &mut String,
        name: &str,
        rest: &str,
    ) -> Result<bool, Trouble> {
        if self.asks_of_latest(said, name, rest)? {
            return Ok(true);
        }
        let done = match name {
            "same" => self.say_same(said),
            "substitute" => self.substitute(said, rest),
            "replaced" => self.replace(said, rest),
            "rows" => self.say_rows(said),
            "refute" => self.say_lines(said),
            _ => return Ok(false),
        };
        done?;
        Ok(true)
    }
}
