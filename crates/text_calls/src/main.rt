//! Reads cases from standard input, one a line, makes the call that each names, with ample memory, and writes the line with its answer.
//! A case is a word, a bar and a text: ` | ` stands between them, and `\n` and `\xHH` in the text are bytes.
#![tactic(auto)]

mod case;
mod checks;
mod deciphering;
mod saying;
mod tables;
mod trees;
mod trouble;

use crate::case::answer;
use crate::trouble::Trouble;
use std::alloc::Global;
use std::io;

// What is written after a line: nothing after one that begins with `#`, else the answer, or why there is none.
fn answered(alloc: Global, line: &str) -> io::Result<String> {
    if line.starts_with('#') {
        return Ok(String::new(alloc));
    }
    match answer(alloc, line) {
        Ok(said) => Ok(said),
        Err(Trouble::NoMemory) => Ok(String::from_str(alloc, " = no memory")?),
        Err(Trouble::NotUnderstood) => Ok(String::from_str(alloc, " = not understood")?),
    }
}

fn main(rt: HostRuntime) -> io::Result<()> {
    let alloc = rt.alloc();
    for line in rt.lines(alloc) {
        let line = line?;
        let said = answered(alloc, &line)?;
        println!(rt; "{line}{said}")?;
    }
    Ok(())
}
