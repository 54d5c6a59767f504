//! The program: standard output and error, and the files of the current folder, for the top call.
#![tactic(auto)]

ghost use Rattle.std.specs.Prelude.{◌≡◌, map, string_bytes};
ghost use Rattle.std.specs.Process.{exit_status};
ghost use Rattle.resolve_cli.specs.declared.status.Status.{Status};
ghost use Rattle.resolve_cli.specs.Numbers.{number_of};
ghost use Rattle.resolve_cli.specs.Resolves.{DidAnswer};

use edge_io::adapters::{DirShelf, StdSink, StdSource};
use edge_io::shelf::Shelf;
use edge_io::sink::Sink;
use edge_io::source::Source;
use resolve_cli::resolve;
use std::alloc::{AllocError, Global};
use std::process::ExitCode;
use std::{env, io};

// The words after the program's name.
fn words(rt: &HostRuntime) -> io::Result<Vec<String>> {
    let mut words = Vec::new(rt.alloc());
    for word in env::args(rt)?.skip(1) {
        words.push(word)?;
    }
    Ok(words)
}

// Carries out the words on these ends. The exit status is the number of the status.
fn carry_out<S: Source, K: Sink, N: Sink, F: Shelf>(
    alloc: Global,
    words: &[String],
    input: &mut S,
    out: &mut K,
    notes: &mut N,
    shelf: &mut F,
) -> ExitCode
    ensures { (s : Status) × (exit_status result ≡ number_of s) × DidAnswer (map string_bytes words.now) (F.tells shelf.old) (F.files shelf.old) (S.left input.old) s (K.held out.old) (K.held out.new) }
{
    let status = resolve(alloc, words, input, out, notes, shelf);
    ExitCode::from(status.number())
}

fn main(rt: HostRuntime) -> io::Result<ExitCode> {
    let alloc = rt.alloc();
    let words = words(&rt)?;
    let mut input = StdSource::new(rt.stdin());
    let mut out = StdSink::new(rt.stdout());
    let mut notes = StdSink::new(rt.stderr());
    let folder = String::new(alloc);
    let mut shelf = DirShelf::new(alloc, rt.clone()?, folder);
    Ok(carry_out(
        alloc,
        words.as_slice(),
        &mut input,
        &mut out,
        &mut notes,
        &mut shelf,
    ))
}
