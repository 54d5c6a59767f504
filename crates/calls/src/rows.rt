//! The words on rows: `row:1,-2` makes one; `reduce` and `largest` take the latest, and `combine:P:Q` the latest two.

use crate::board::Board;
use crate::saying::{say, say_number, say_row};
use crate::trouble::{Trouble, push};
use crate::words::{parsed_list, two_counts};
use num_theory::{combine, largest, reduce};
use sqlite_items::Items;
use std::alloc::Global;

// A row of so many sevens.
fn sevens(alloc: Global, width: usize) -> Result<Vec<i32>, Trouble> {
    let mut out = Vec::new(alloc);
    for _ in 0..width {
        push(&mut out, 7)?;
    }
    Ok(out)
}

fn vector(alloc: Global, row: &[i32]) -> Result<Vec<i32>, Trouble> {
    let mut out = Vec::new(alloc);
    out.extend_from_slice(row)?;
    Ok(out)
}

fn say_combined(
    alloc: Global,
    said: &mut String,
    p: u32,
    a: &[i32],
    q: u32,
    b: &[i32],
) -> Result<(), Trouble> {
    let mut out = sevens(alloc, a.len())?;
    if p >= 1 << 31 || q >= 1 << 31 || a.len() != b.len() || out.len() != a.len() {
        return Err(Trouble::NotUnderstood);
    }
    if combine(p, a, q, b, out.as_mut_slice()).is_err() {
        say(said, "wide")?;
    }
    say_row(said, out.as_slice())
}

impl Board {
    // The latest row, which is used.
    fn take_row(&mut self) -> Result<Items<i32>, Trouble> {
        self.rows.pop().ok_or(Trouble::NotUnderstood)
    }

    fn say_reduced(&mut self, said: &mut String) -> Result<(), Trouble> {
        let row = self.take_row()?;
        let mut row = vector(self.alloc, row.as_slice())?;
        reduce(row.as_mut_slice());
        say_row(said, row.as_slice())
    }

    // Another row.
    fn put_row(&mut self, rest: &str) -> Result<(), Trouble> {
        let row = parsed_list::<i32>(self.alloc, rest)?;
        self.rows.push(row)?;
        Ok(())
    }

    fn say_largest(&mut self, said: &mut String) -> Result<(), Trouble> {
        let row = self.take_row()?;
        say_number(said, i64::from(largest(row.as_slice())))
    }

    fn say_combined(&mut self, said: &mut String, p: u32, q: u32) -> Result<(), Trouble> {
        let b = self.take_row()?;
        let a = self.take_row()?;
        say_combined(self.alloc, said, p, a.as_slice(), q, b.as_slice())
    }

    fn combine(&mut self, said: &mut String, rest: &str) -> Result<(), Trouble> {
        let (p, q) = two_counts(rest)?;
        self.say_combined(said, p, q)
    }

    /// Whether the word is one on rows, which is done.
    pub fn calls_with_rows(
        &mut self,
        said: &mut String,
        name: &str,
        rest: &str,
    ) -> Result<bool, Trouble> {
        let done = match name {
            "row" => self.put_row(rest),
            "reduce" => self.say_reduced(said),
            "largest" => self.say_largest(said),
            "combine" => self.combine(said, rest),
            _ => return Ok(false),
        };
        done?;
        Ok(true)
    }
}
