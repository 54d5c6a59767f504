//! Elimination of atoms, one after another.
ghost use Rattle.std.specs.Prelude.{◌≡◌, ◌+◌, ◌≤◌, [], ◌∷◌, All, IfErr, IfOk, IsTrue, None, Some, length};
ghost use Rattle.std.specs.Option.{option_map};
ghost use Rattle.num_theory.specs.Lines.{refutes};
ghost use Rattle.linear_prover.specs.Elimination.{eliminate_from, found, numbered_from, refutation};
ghost use Rattle.linear_prover.specs.Elimination as spec;
ghost use Rattle.num_theory.specs.Table.{IsTable};
ghost use Rattle.linear_prover.specs.Refusal.{IsRefuteRefusal};
ghost use Rattle.linear_prover.specs.working.Eliminating.{Goes, IsRow, elimination};

use crate::multipliers::lines_of;
use crate::rows_in_hand::{Hand, NumberedRow, Stop, contradicts, eliminate, push};
use math_terms::{Line, NoMemory};
use num_theory::RowTable;
use sqlite_items::Items;
use std::alloc::Global;

/// Lines by which rows are added up to a contradiction, in the order in which they were made. Rows are counted from 1 over the
/// table and then over the lines.
#[derive(Debug, Drop)]
pub struct Multipliers {
    pub lines: Items<Line>,
}

/// Why there are no lines: elimination ends without a contradiction, or a list of it had more than 4,096 rows.
#[derive(Clone, Copy, Debug, PartialEq, Eq)]
pub enum RefuteError {
    NoRefutation,
    NoMemory,
}

impl From<NoMemory> for RefuteError {
    ghost use Rattle.std.specs.Prelude.{◌≡◌};
    ghost use Rattle.linear_prover.specs.declared.elimination.RefuteError.TheVariants.{NoMemory};

    ghost from_gives = { λ _ e. e ≡ NoMemory };

    fn from(_error: NoMemory) -> RefuteError {
        RefuteError::NoMemory
    }
}

// A second row with the same numbers.
fn copied(alloc: Global, row: &Items<i32>) -> Result<Items<i32>, NoMemory>
    ensures { IfOk result (λ copy. copy ≡ row.now) }
{
    match Items::from_slice(alloc, row.as_slice()) {
        Ok(copy) => Ok(copy),
        Err(_) => Err(NoMemory),
    }
}

// The rows of a table with their numbers.
fn number_rows(alloc: Global, rows: &[Items<i32>]) -> Result<Vec<NumberedRow>, NoMemory>
    ensures { IfOk result (λ numbered. numbered.items ≡ numbered_from 0 rows.now) }
{
    let mut numbered = Vec::new(alloc);
    for (number, row) in rows.iter().enumerate() {
        push(&mut numbered, (number, copied(alloc, row)?))?;
    }
    Ok(numbered)
}

// A line of a row that refutes by itself, where the table has one.
fn first_line(rows: &[Items<i32>]) -> Option<Line>
    requires { length rows.now ≤ 256 }
    ensures { option_map (λ line. line ∷ []) result ≡ spec.first_line 1 rows.now }
{
    for (at, row) in rows.iter().enumerate() {
        if contradicts(row.as_slice()) {
            let number = at as u32 + 1;
            return Some(Line {
                p: 1,
                i: number,
                q: 0,
                j: number,
            });
        }
    }
    None
}

// Each atom in order.
fn eliminate_all(alloc: Global, n: u32, atoms: usize, hand: &mut Hand) -> Result<(), Stop>
    requires { All (λ r. IsRow (atoms + 1) r.1) hand.old.rows.items }
    ensures { Goes (eliminate_from n atoms 0 hand.old.rows.items hand.old.made.items) hand.new result }
{
    for atom in 0..atoms {
        eliminate(alloc, n, atom, hand)?;
    }
    Ok(())
}

// The lines that elimination finds, where no row of the table refutes by itself.
fn search(alloc: Global, table: &RowTable) -> Result<Multipliers, RefuteError>
    requires { IsTable table.now }
    ensures lines { IfOk result (λ m. found (length table.now.rows) (elimination table.now) ≡ Some m.lines) }
    ensures refused { IfErr result (λ e. e ≡ RefuteError.NoRefutation → found (length table.now.rows) (elimination table.now) ≡ None) }
{
    let rows = table.rows.as_slice();
    let n = rows.len() as u32;
    let mut hand = Hand {
        rows: number_rows(alloc, rows)?,
        made: Vec::new(alloc),
    };
    match eliminate_all(alloc, n, table.atoms.len(), &mut hand) {
        Ok(()) | Err(Stop::TooMany) => Err(RefuteError::NoRefutation),
        Err(Stop::Contradiction) => Ok(Multipliers {
            lines: lines_of(alloc, n, hand.made.as_slice())?,
        }),
        Err(Stop::NoMemory) => Err(RefuteError::NoMemory),
    }
}

// One line alone.
fn alone(alloc: Global, line: Line) -> Result<Multipliers, RefuteError>
    ensures line { IfOk result (λ m. m.lines ≡ line ∷ []) }
    ensures memory { IfErr result (λ e. e ≡ RefuteError.NoMemory) }
{
    match Items::from_slice(alloc, &[line]) {
        Ok(lines) => Ok(Multipliers { lines }),
        Err(_) => Err(RefuteError::NoMemory),
    }
}

/// Finds lines that refute the rows of a table, by elimination of its atoms in order. A row of the table that refutes by itself
/// is named by one line, 1 times it and 0 times it.
pub fn refute(alloc: Global, table: &RowTable) -> Result<Multipliers, RefuteError>
    requires { IsTable table.now }
    ensures found { IfOk result (λ m. refutation (length table.now.atoms) table.now.rows ≡ Some m.lines) }
    ensures refused { IfErr result (IsRefuteRefusal table.now) }
    ensures refutes { IfOk result (λ m. IsTrue (refutes table.now.rows m.lines)) }
{
    match first_line(table.rows.as_slice()) {
        Some(line) => alone(alloc, line),
        None => search(alloc, table),
    }
}
