//! Reads cases from standard input, one a line, makes the calls that they name, with ample memory, and writes each line with its answer.
//! A case is a list of words. A word makes a term of the latest terms, declares a variable, makes a row or a step of a certificate, or
//! calls something with what was made. `words.rt` says how they are spelled.
#![tactic(auto)]

mod answers;
mod board;
mod cells;
mod line;
mod lists;
mod making;
mod numbers;
mod outside;
mod rows;
mod saying;
mod sequents;
mod steps;
mod terms;
mod texts;
mod trouble;
mod values;
mod words;

use crate::line::answer;
use crate::trouble::Trouble;
use std::alloc::Global;
use std::io;

// What is written after a line: nothing after one that begins with `#`, else the answer, or why there is none.
fn answered(alloc: Global, line: &str) -> io::Result<String> {
    if line.starts_with('#') {
        return Ok(String::new(alloc));
    }
    match answer(alloc, line) {
        Ok(said) => Ok(said),
        Err(Trouble::NoMemory) => Ok(String::from_str(alloc, " = no memory")?),
        Err(Trouble::NotUnderstood) => Ok(String::from_str(alloc, " = not understood")?),
    }
}

fn main(rt: HostRuntime) -> io::Result<()> {
    let alloc = rt.alloc();
    for line in rt.lines(alloc) {
        let line = line?;
        let said = answered(alloc, &line)?;
        println!(rt; "{line}{said}")?;
    }
    Ok(())
}
