//! The order of texts.

ghost use Rattle.std.specs.Prelude.{◌≡◌, ◌<◌, ◌≤◌, ℕ, [], ◌∷◌, List, length, true, false, Some, ltb, slice_get, map, MatchBool, MatchOption, OnSome, IfOk, IsTrue, if◌then◌else◌};
ghost use Rattle.std.specs.Fmt.{signed_decimal};
ghost use Rattle.math_terms.specs.declared.term.Term.{Term};
ghost use Rattle.math_terms.specs.Forms.{form_number};
ghost use Rattle.num_theory.specs.Linear.{text_before};
ghost use Rattle.num_theory.specs.Texts.{text};
ghost use Rattle.term_cells.specs.declared.cell.Cell.{Cell};
ghost use Rattle.term_cells.specs.working.Marks as marks;
ghost use Rattle.term_cells.specs.working.Pieces.{HasPieces, IsWithin, NextIs, Says, comma_before, list_pieces, term_pieces};
ghost use Rattle.term_cells.specs.working.Reading.{Reads, weight};
ghost use Rattle.term_cells.specs.Standing.{parts_stand, stands};

use crate::cell::Cell;
use crate::cells::Cells;
use crate::marks::{closing, is_numbered, left_least, opening, right_least, symbol};
use crate::reading::{Frame, Reading};
use math_terms::{Form, NoMemory};
use std::alloc::Global;
use std::marker::Model;

/// Room for comparing texts: a place can be read that is below its number.
#[derive(Debug, Drop)]
pub struct Scratch {
    left: Reading,
    right: Reading,
}

impl Model for Scratch {
    ghost use Rattle.std.specs.Prelude.{ℕ, min};

    ghost Value = { ℕ };

    ghost view = { λ s. min s.left.1 s.right.1 };
}

impl Scratch {
    /// Room for the texts at places below this number.
    pub fn new(alloc: Global, room: usize) -> Result<Scratch, NoMemory>
        ensures { IfOk result (λ s. s ≡ room) }
    {
        Ok(Scratch {
            left: Reading::new(alloc, room)?,
            right: Reading::new(alloc, room)?,
        })
    }
}

/// What comes next in a text: bytes, a number, the text at a place, or nothing more.
#[derive(Clone, Copy)]
pub(crate) enum Next {
    Mark(&'static [u8]),
    Number(i64),
    Child(u32, bool),
    Done,
}

impl Cells {
    /// Whether the text of the term at p stands before that of the term at q, by bytes, or the two are equal. This takes no memory.
    pub fn before(&self, p: u32, q: u32, scratch: &mut Scratch) -> bool
        ensures room { scratch.new ≡ scratch.old }
        ensures order { (t u : Term) → stands self.now.0 t p ≡ true → stands self.now.0 u q ≡ true → p < scratch.old → q < scratch.old → result ≡ text_before (text t) (text u) }
    {
        start(&mut scratch.left, p);
        start(&mut scratch.right, q);
        self.compare(&mut scratch.left, &mut scratch.right)
    }

    /// Whether the one text that is left stands before the other, or the two are equal.
    fn compare(&self, left: &mut Reading, right: &mut Reading) -> bool
        ensures left_room { left.new.1 ≡ left.old.1 }
        ensures right_room { right.new.1 ≡ right.old.1 }
        ensures order { (x y : List ℕ) → Reads self.now.0 left.old x → Reads self.now.0 right.old y → result ≡ text_before x y }
    {
        'bytes: while let Some(a) = self.next_byte(left) {
            let Some(b) = self.next_byte(right) else {
                return false;
            };
            if a != b {
                return a < b;
            }
        }
        true
    }

    /// The byte that a reading comes to next, none at the end of its text.
    fn next_byte(&self, reading: &mut Reading) -> Option<u8>
        ensures room { reading.new.1 ≡ reading.old.1 }
        ensures falls { OnSome result (weight reading.new < weight reading.old) }
        ensures reads { (text : List ℕ) → Reads self.now.0 reading.old text → MatchOption result (text ≡ []) (λ byte. (rest : List ℕ) × (text ≡ byte ∷ rest) × Reads self.now.0 reading.new rest) }
    {
        loop {
            if let Some(byte) = reading.take_byte() {
                return Some(byte);
            }
            if !self.advance(reading) {
                return None;
            }
        }
    }

    /// One step, to the next piece of the top frame, where no bytes come before it. The answer is no at the end.
    fn advance(&self, reading: &mut Reading) -> bool
        ensures room { reading.new.1 ≡ reading.old.1 }
        ensures falls { reading.old.2 ≡ [] → IsTrue result → weight reading.new < weight reading.old }
        ensures reads { (text : List ℕ) → reading.old.2 ≡ [] → Reads self.now.0 reading.old text → MatchBool result (Reads self.now.0 reading.new text) (text ≡ []) }
    {
        let Some(frame) = reading.pop() else {
            return false;
        };
        match self.next_piece(frame) {
            Next::Done => true,
            Next::Mark(mark) => {
                reading.push(frame.after());
                reading.say(mark);
                true
            }
            Next::Number(number) => {
                reading.push(frame.after());
                reading.say_number(number);
                true
            }
            Next::Child(place, wrapped) => {
                reading.push(frame.after());
                if place < frame.place {
                    reading.push(Frame {
                        place,
                        wrapped,
                        stage: 0,
                    });
                }
                true
            }
        }
    }

    /// The piece of this number of the term or the list of parts at a frame's place.
    fn next_piece(&self, frame: Frame) -> Next
        ensures within { IsWithin frame.stage result }
        ensures piece { (ps : List (List ℕ)) → HasPieces self.now.0 frame.place frame.wrapped ps → NextIs self.now.0 frame.place ps frame.stage result }
    {
        let Some(cell) = self.at(frame.place) else {
            return Next::Done;
        };
        if cell.is_link() {
            return self.list_piece(cell, frame.stage);
        }
        let Some(form) = cell.node_form() else {
            return Next::Done;
        };
        self.node_piece(cell, form, frame.wrapped, frame.stage)
    }

    /// The same of a list of parts, of which the cell has the first.
    fn list_piece(&self, cell: Cell, stage: u8) -> Next
        ensures within { IsWithin stage result }
        ensures piece { (place limit : ℕ) (t : Term) (ts : List Term) → slice_get self.now.0 place ≡ Some cell → parts_stand self.now.0 (map (stands self.now.0) (t ∷ ts)) place limit ≡ true
            → NextIs self.now.0 place (list_pieces (t ∷ ts)) stage result }
    {
        match stage {
            0 => Next::Child(cell.a, false),
            1 => Next::Mark(self.comma_before(cell.b)),
            2 => Next::Child(cell.b, false),
            _ => Next::Done,
        }
    }

    /// What comes before the parts of a list that are not the first.
    fn comma_before(&self, list: u32) -> &'static [u8]
        ensures short { length result.now ≤ 40 }
        ensures comma { (limit : ℕ) (ts : List Term) → parts_stand self.now.0 (map (stands self.now.0) ts) list limit ≡ true → result.now ≡ comma_before ts }
    {
        let Some(cell) = self.at(list) else {
            return b"";
        };
        if cell.is_link() { b", " } else { b"" }
    }

    /// The same of a term of this form, of which the cell has the head.
    fn node_piece(&self, cell: Cell, form: Form, wrapped: bool, stage: u8) -> Next
        ensures within { IsWithin stage result }
        ensures piece { (place : ℕ) (t : Term) → slice_get self.now.0 place ≡ Some cell → cell.form ≡ form_number form → stands self.now.0 t place ≡ true
            → NextIs self.now.0 place (term_pieces wrapped t) stage result }
    {
        let count = cell.child_count();
        match stage {
            0 => mark_if(wrapped, b"("),
            1 => Next::Mark(opening(form, cell.own)),
            2 => self.operand(0 < count, cell.a, left_least(form)),
            3 => mark_if(1 < count, symbol(form)),
            4 => self.operand(1 < count, cell.b, right_least(form)),
            5 => mark_if(2 < count, symbol(form)),
            6 => self.operand(2 < count, cell.c, right_least(form)),
            7 => Next::Mark(closing(form)),
            8 => number_if(is_numbered(form), cell.own),
            9 => mark_if(wrapped, b")"),
            _ => Next::Done,
        }
    }

    /// The child at a place, where it is there, in parentheses if it is weaker than this.
    fn operand(&self, there: bool, place: u32, least: u8) -> Next
        ensures within { (stage : ℕ) → stage < 10 → IsWithin stage result }
        ensures some { (c : Cell) → there ≡ true → slice_get self.now.0 place ≡ Some c → result ≡ Next.Child place (ltb (marks.strength c.form) least) }
        ensures none { there ≡ false → Says result [] }
    {
        if !there {
            return Next::Mark(b"");
        }
        let Some(cell) = self.at(place) else {
            return Next::Done;
        };
        Next::Child(place, cell.strength() < least)
    }
}

/// The text of the term at a place is to be read.
fn start(reading: &mut Reading, place: u32)
    ensures room { reading.new.1 ≡ reading.old.1 }
    ensures reads { (cells : List Cell) (t : Term) → stands cells t place ≡ true → place < reading.old.1 → Reads cells reading.new (text t) }
{
    reading.clear();
    reading.push(Frame {
        place,
        wrapped: false,
        stage: 0,
    });
}

/// These bytes, where they are there.
fn mark_if(there: bool, mark: &'static [u8]) -> Next
    ensures within { (stage : ℕ) → stage < 10 → length mark.now ≤ 40 → IsWithin stage result }
    ensures says { Says result (if there then mark.now else []) }
{
    Next::Mark(if there { mark } else { b"" })
}

/// This number, where it is there.
fn number_if(there: bool, number: i64) -> Next
    ensures within { (stage : ℕ) → stage < 10 → IsWithin stage result }
    ensures says { Says result (if there then signed_decimal number else []) }
{
    if there {
        Next::Number(number)
    } else {
        Next::Mark(b"")
    }
}
