//! The answer of a case.

use crate::answers::answers;
use crate::board::Board;
use crate::numbers::calls_with_numbers;
use crate::outside::outside;
use crate::texts::text_answer;
use crate::trouble::Trouble;
use crate::words::name_and_rest;
use std::alloc::Global;

impl Board {
    // Whether a word makes something, which is done.
    fn makes_something(&mut self, name: &str, rest: &str) -> Result<bool, Trouble> {
        if self.declares(name)? {
            return Ok(true);
        }
        if self.makes(name, rest)? {
            return Ok(true);
        }
        self.makes_step(name, rest)
    }

    // Whether a word calls something with values, rows or cells, which is done.
    fn calls_with_values(
        &mut self,
        said: &mut String,
        name: &str,
        rest: &str,
    ) -> Result<bool, Trouble> {
        if calls_with_numbers(said, name, rest)? {
            return Ok(true);
        }
        if self.calls_with_rows(said, name, rest)? {
            return Ok(true);
        }
        if self.calls_with_cells(said, name, rest)? {
            return Ok(true);
        }
        self.copies(said, name, rest)
    }

    // Whether a word calls something, which is done.
    fn calls(&mut self, said: &mut String, name: &str, rest: &str) -> Result<bool, Trouble> {
        if self.calls_with_values(said, name, rest)? {
            return Ok(true);
        }
        if self.calls_with_terms(said, name, rest)? {
            return Ok(true);
        }
        self.calls_with_sequent(said, name, rest)
    }

    // Does what a word says.
    fn word(&mut self, said: &mut String, word: &str) -> Result<(), Trouble> {
        let (name, rest) = name_and_rest(word);
        if self.makes_something(name, rest)? {
            return Ok(());
        }
        if self.calls(said, name, rest)? {
            return Ok(());
        }
        Err(Trouble::NotUnderstood)
    }
}

// Does what the words of a case say, one after another.
fn do_words(board: &mut Board, said: &mut String, line: &str) -> Result<(), Trouble> {
    for word in line.split_whitespace() {
        board.word(said, word)?;
    }
    Ok(())
}

fn answer_words(alloc: Global, said: &mut String, line: &str) -> Result<(), Trouble> {
    let mut board = Board::new(alloc);
    do_words(&mut board, said, line)
}

// What a call on a text answers, whose word stands before the bar.
fn answer_text(alloc: Global, said: &mut String, word: &str, text: &str) -> Result<(), Trouble> {
    let (name, rest) = name_and_rest(word);
    if outside(alloc, said, name, rest, text)? {
        return Ok(());
    }
    if answers(alloc, said, name, rest, text)? {
        return Ok(());
    }
    text_answer(alloc, said, name, rest, text)
}

/// What the calls of a case answer, each after a blank. A case with a bar has its words before it, and a text after it.
pub fn answer(alloc: Global, line: &str) -> Result<String, Trouble> {
    let mut said = String::from_str(alloc, " =")?;
    match line.split_once(" | ") {
        Some((word, text)) => answer_text(alloc, &mut said, word, text)?,
        None => answer_words(alloc, &mut said, line)?,
    }
    Ok(said)
}
