//! The top call.

ghost use Rattle.std.specs.Prelude.{◌≡◌, ◌≤◌, ◌<◌, ◌^◌, List, ℕ, Option, Some, IsTrue, length, map, MatchResult, string_bytes};
ghost use Rattle.edge_io.specs.Files.{Files, SameFiles};
ghost use Rattle.module_parser.specs.Spelling.{RefusesOrNoMemory, Spells};
ghost use Rattle.command_words.specs.Words.{Run, Word, command};
ghost use Rattle.component_checks.specs.Checks.{mistake_of};
ghost use Rattle.main_form.specs.declared.file.Shape.TheVariants as shape;
ghost use Rattle.main_form.specs.Formed.{IsForm};
ghost use Rattle.main_form.specs.Shape.{shape_of};
ghost use Rattle.resolve_cli.specs.Answer.{ComponentsAnswer, FileAnswer, TextAnswer, most_component_bytes};
ghost use Rattle.resolve_cli.specs.Headline.{Headline};
ghost use Rattle.resolve_cli.specs.Resolves.{Counted, DidAnswer, IsTextRefusal, Left, Noted, SomeAnswer};
ghost use Rattle.resolve_cli.specs.Texts.{note_of};

use crate::answer_laws::headline;
use crate::notes::write_note;
use crate::running::{refused, run_module};
use crate::status::Status;
use command_words::{Command, read_command};
use component_checks::mistake_of;
use edge_io::laws::unchanged;
use edge_io::shelf::{Shelf, ShelfError};
use edge_io::sink::Sink;
use edge_io::source::Source;
use main_form::{Module, Shape, built_is_formed, main_module};
use math_terms::{Name, NoMemory};
use module_parser::{ParseError, parse};
use report_lines::{lex_line, mistake_line, not_built_line, syntax_line};
use res_ast::Component;
use sqlite_items::Items;
use std::alloc::Global;

// The most bytes of a component's file.
const MOST_BYTES: usize = 1048576;

// Carries out components that are a module.
fn run_formed<S: Source, K: Sink>(
    alloc: Global,
    components: Items<Component>,
    m: &Module,
    steps: u64,
    input: &mut S,
    out: &mut K,
) -> Status
    requires form { IsForm m.now }
    requires is { shape_of components ≡ shape.Module m.now }
    ensures answered { SomeAnswer (ComponentsAnswer components steps) (S.left input.old) result (K.held out.old) (K.held out.new) }
    ensures left { Left result (S.left input.old) (S.left input.new) (S.faults input.old) (S.faults input.new) }
    ensures out_counted { Counted Status.SinkFault result (K.faults out.old) (K.faults out.new) }
    ensures input_counted { Counted Status.SourceFault result (S.faults input.old) (S.faults input.new) }
    ensures no_shelf { result ≡ Status.ShelfFault → ⊥ }
{
    unchanged();
    match mistake_of(alloc, components) {
        Ok(None) => run_module(alloc, m, steps, input, out),
        Ok(Some(mistake)) => refused(mistake_line(alloc, m.name.bytes(), &mistake)),
        Err(_) => Status::NoMemory,
    }
}

// Carries out the components that a text spells.
fn run_components<S: Source, K: Sink>(
    alloc: Global,
    components: Items<Component>,
    steps: u64,
    input: &mut S,
    out: &mut K,
) -> Status
    ensures answered { SomeAnswer (ComponentsAnswer components steps) (S.left input.old) result (K.held out.old) (K.held out.new) }
    ensures left { Left result (S.left input.old) (S.left input.new) (S.faults input.old) (S.faults input.new) }
    ensures out_counted { Counted Status.SinkFault result (K.faults out.old) (K.faults out.new) }
    ensures input_counted { Counted Status.SourceFault result (S.faults input.old) (S.faults input.new) }
    ensures no_shelf { result ≡ Status.ShelfFault → ⊥ }
{
    unchanged();
    built_is_formed();
    match main_module(alloc, components.as_slice()) {
        Ok(Shape::Module(m)) => run_formed(alloc, components, &m, steps, input, out),
        Ok(Shape::NotBuilt { name, at }) => refused(not_built_line(alloc, name.bytes(), at)),
        Err(_) => Status::NoMemory,
    }
}

// The status of a text that spells nothing.
fn refuse_text(alloc: Global, file: &str, e: ParseError) -> Status
    ensures answered { (bytes : List ℕ) (steps : ℕ) (left held : Option (List ℕ)) → RefusesOrNoMemory bytes e → SomeAnswer (TextAnswer file.now bytes steps) left result held held }
    ensures kind { IsTextRefusal result }
{
    unchanged();
    match e {
        ParseError::Lex(e) => refused(lex_line(alloc, file.as_bytes(), &e)),
        ParseError::Syntax(e) => refused(syntax_line(alloc, file.as_bytes(), e)),
        ParseError::NoMemory => Status::NoMemory,
    }
}

// Carries out a text.
fn run_text<S: Source, K: Sink>(
    alloc: Global,
    file: &str,
    bytes: &[u8],
    steps: u64,
    input: &mut S,
    out: &mut K,
) -> Status
    requires { length bytes.now < 2 ^ 32 }
    ensures answered { SomeAnswer (TextAnswer file.now bytes.now steps) (S.left input.old) result (K.held out.old) (K.held out.new) }
    ensures left { Left result (S.left input.old) (S.left input.new) (S.faults input.old) (S.faults input.new) }
    ensures out_counted { Counted Status.SinkFault result (K.faults out.old) (K.faults out.new) }
    ensures input_counted { Counted Status.SourceFault result (S.faults input.old) (S.faults input.new) }
    ensures no_shelf { result ≡ Status.ShelfFault → ⊥ }
{
    unchanged();
    match parse(alloc, bytes) {
        Ok(components) => run_components(alloc, components, steps, input, out),
        Err(e) => refuse_text(alloc, file, e),
    }
}

fn too_long(name: Result<Name, NoMemory>) -> Status
    ensures { MatchResult name (λ n. result ≡ Status.FileTooLong n) (λ _. result ≡ Status.NoMemory) }
{
    match name {
        Ok(name) => Status::FileTooLong { name },
        Err(_) => Status::NoMemory,
    }
}

fn not_found(name: Result<Name, NoMemory>) -> Status
    ensures { MatchResult name (λ n. result ≡ Status.NotFound n) (λ _. result ≡ Status.NoMemory) }
{
    match name {
        Ok(name) => Status::NotFound { name },
        Err(_) => Status::NoMemory,
    }
}

fn most_component_bytes() -> usize
    ensures { result ≡ most_component_bytes }
{
    MOST_BYTES
}

// Carries out a file that was read.
fn run_bytes<S: Source, K: Sink>(
    alloc: Global,
    file: &str,
    bytes: &[u8],
    steps: u64,
    input: &mut S,
    out: &mut K,
) -> Status
    requires { length bytes.now < 2 ^ 32 }
    ensures answered { SomeAnswer (FileAnswer file.now bytes.now steps) (S.left input.old) result (K.held out.old) (K.held out.new) }
    ensures left { Left result (S.left input.old) (S.left input.new) (S.faults input.old) (S.faults input.new) }
    ensures out_counted { Counted Status.SinkFault result (K.faults out.old) (K.faults out.new) }
    ensures input_counted { Counted Status.SourceFault result (S.faults input.old) (S.faults input.new) }
    ensures no_shelf { result ≡ Status.ShelfFault → ⊥ }
{
    unchanged();
    if bytes.len() > most_component_bytes() {
        too_long(Name::new(alloc, file.as_bytes()))
    } else {
        run_text(alloc, file, bytes, steps, input, out)
    }
}

// Reads a file from the shelf and carries it out.
fn run_file<S: Source, K: Sink, F: Shelf>(
    alloc: Global,
    file: &str,
    steps: u64,
    input: &mut S,
    out: &mut K,
    shelf: &mut F,
) -> Status
    ensures answered { (words : List Word) → command words ≡ Some (Run file.now steps) → DidAnswer words (F.tells shelf.old) (F.files shelf.old) (S.left input.old) result (K.held out.old) (K.held out.new) }
    ensures left { Left result (S.left input.old) (S.left input.new) (S.faults input.old) (S.faults input.new) }
    ensures out_counted { Counted Status.SinkFault result (K.faults out.old) (K.faults out.new) }
    ensures input_counted { Counted Status.SourceFault result (S.faults input.old) (S.faults input.new) }
    ensures shelf_counted { Counted Status.ShelfFault result (F.faults shelf.old) (F.faults shelf.new) }
    ensures same { IsTrue (F.tells shelf.old) → SameFiles (F.files shelf.old) (F.files shelf.new) }
    ensures tells_on { F.tells shelf.new ≡ F.tells shelf.old }
{
    unchanged();
    let mut bytes = Vec::new(alloc);
    match shelf.read(file, &mut bytes) {
        Ok(()) => run_bytes(alloc, file, bytes.as_slice(), steps, input, out),
        Err(ShelfError::NotFound) => not_found(Name::new(alloc, file.as_bytes())),
        Err(ShelfError::TooLong) => too_long(Name::new(alloc, file.as_bytes())),
        Err(ShelfError::Failed) => Status::ShelfFault,
        Err(ShelfError::NoMemory) => Status::NoMemory,
    }
}

// What the words answer, but for notes.
fn answer<S: Source, K: Sink, F: Shelf>(
    alloc: Global,
    words: &[String],
    input: &mut S,
    out: &mut K,
    shelf: &mut F,
) -> Status
    ensures answered { DidAnswer (map string_bytes words.now) (F.tells shelf.old) (F.files shelf.old) (S.left input.old) result (K.held out.old) (K.held out.new) }
    ensures left { Left result (S.left input.old) (S.left input.new) (S.faults input.old) (S.faults input.new) }
    ensures out_counted { Counted Status.SinkFault result (K.faults out.old) (K.faults out.new) }
    ensures input_counted { Counted Status.SourceFault result (S.faults input.old) (S.faults input.new) }
    ensures shelf_counted { Counted Status.ShelfFault result (F.faults shelf.old) (F.faults shelf.new) }
    ensures same { IsTrue (F.tells shelf.old) → SameFiles (F.files shelf.old) (F.files shelf.new) }
    ensures tells_on { F.tells shelf.new ≡ F.tells shelf.old }
{
    unchanged();
    match read_command(words) {
        None => Status::BadWords,
        Some(Command::Other) => Status::NotBuilt,
        Some(Command::Run { file, steps }) => run_file(alloc, file, steps, input, out, shelf),
    }
}

/// Carries out the command that the words say, those after the program's name, and answers how it ended. The one file
/// of `run` is read from the shelf; its module is looked at for mistakes, and its conditions are proved; then the input is read to its
/// end, and the module's code is run on its numbers, for at most so many instructions as the words allow, which writes on `out`. `notes` gets the line of the status.
/// What an answer says of a run is the clause `right`: at `Done` the text of the file is right, the run is over, and what it has written is
/// what Main claims.
pub fn resolve<S: Source, K: Sink, N: Sink, F: Shelf>(
    alloc: Global,
    words: &[String],
    input: &mut S,
    out: &mut K,
    notes: &mut N,
    shelf: &mut F,
) -> Status
    // Over some files and some input, the shelf's and the source's where these tell: the status and the bytes are an answer's, or no
    // answer is known yet and nothing is written, or an answer is cut and some first bytes of it are written.
    ensures did { DidAnswer (map string_bytes words.now) (F.tells shelf.old) (F.files shelf.old) (S.left input.old) result
        (K.held out.old) (K.held out.new) }
    // Every answer that is Done, or that the steps are spent, runs right: the headline.
    ensures right { Headline }
    // What is left of the input, and the counts of faults: none falls, and a fault is told only where its count rose.
    ensures left { Left result (S.left input.old) (S.left input.new) (S.faults input.old) (S.faults input.new) }
    ensures out_counted { Counted Status.SinkFault result (K.faults out.old) (K.faults out.new) }
    ensures input_counted { Counted Status.SourceFault result (S.faults input.old) (S.faults input.new) }
    ensures shelf_counted { Counted Status.ShelfFault result (F.faults shelf.old) (F.faults shelf.new) }
    // Notes got the line of the status, and no count of theirs fell. The files stay.
    ensures noted { Noted (N.held notes.old) (N.held notes.new) (N.faults notes.old) (N.faults notes.new) (note_of result) }
    ensures same_files { IsTrue (F.tells shelf.old) → SameFiles (F.files shelf.old) (F.files shelf.new) }
    ensures tells_on { F.tells shelf.new ≡ F.tells shelf.old }
{
    headline();
    let status = answer(alloc, words, input, out, shelf);
    write_note(notes, &status);
    status
}
