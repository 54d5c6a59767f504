//! Running a module: its conditions proved, its image made, the input read, the machine started.

ghost use Rattle.std.specs.Prelude.{◌≡◌, ◌≤◌, ◌⊎◌, ℕ, ℤ, List, IfOk, IsSome, MatchResult};
ghost use Rattle.edge_io.specs.Numbers.{HadLeft};
ghost use Rattle.stack_machine.specs.Machine.{after};
ghost use Rattle.stack_machine.specs.Runs.{HasMain, NeverStuck};
ghost use Rattle.main_form.specs.declared.module.Module.{Module};
ghost use Rattle.main_form.specs.Formed.{IsForm};
ghost use Rattle.main_vcs.specs.Soundness.{IsInput};
ghost use Rattle.report_lines.specs.Lines as lines;
ghost use Rattle.resolve_cli.specs.Answer.{IsAccepted, IsBuilt, ModuleAnswer, RunAnswer, image_of};
ghost use Rattle.resolve_cli.specs.Headline.{IsRunEnd};
ghost use Rattle.resolve_cli.specs.Resolves.{Answered, Counted, IsCut, Left, SomeAnswer};

use crate::status::{LinkError, Status};
use edge_io::laws::unchanged;
use edge_io::numbers::{InputError, read_numbers};
use edge_io::sink::Sink;
use edge_io::source::Source;
use main_form::Module;
use main_prover::laws::{modules_are_formed, proved_is_valid};
use main_prover::{Unproved, first_unproved, link_main};
use main_vcs::laws::conditions_are_sound;
use math_terms::{Name, NoMemory};
use report_lines::unproved_line;
use stack_machine::laws::{code_simulates, halted_stays, output_grows};
use stack_machine::{CodeError, Image, Stop, compile, run};
use std::alloc::Global;

/// A status that has a line, or want of memory.
pub fn refused(line: Result<Name, NoMemory>) -> Status
    ensures { MatchResult line (λ l. result ≡ Status.Refused l) (λ _. result ≡ Status.NoMemory) }
{
    match line {
        Ok(line) => Status::Refused { line },
        Err(_) => Status::NoMemory,
    }
}

// Runs a module's image on numbers, for so many instructions at most.
fn run_image<K: Sink>(
    alloc: Global,
    image: &Image,
    numbers: &[i64],
    steps: u64,
    out: &mut K,
) -> Status
    requires main { HasMain image.now }
    requires never_stuck { NeverStuck image.now numbers.now steps }
    ensures answered { (m : Module) → image.now ≡ image_of m → Answered (RunAnswer m numbers.now steps) result (K.held out.old) (K.held out.new) }
    ensures counted { Counted Status.SinkFault result (K.faults out.old) (K.faults out.new) }
    ensures ran { IsRunEnd result ⊎ IsCut result }
{
    halted_stays();
    output_grows();
    match run(alloc, image, numbers, steps, out) {
        Stop::Halted => Status::Done,
        Stop::StepsSpent => Status::StepsSpent { steps },
        Stop::SinkFault => Status::SinkFault,
        Stop::NoMemory => Status::NoMemory,
    }
}

// Reads the input, and runs a module's image on its numbers.
fn run_on_input<S: Source, K: Sink>(
    alloc: Global,
    image: &Image,
    steps: u64,
    input: &mut S,
    out: &mut K,
) -> Status
    requires main { HasMain image.now }
    requires never_stuck { (numbers : List ℤ) → IsInput numbers → (n : ℕ) → IsSome (after image.now numbers n) }
    ensures answered { (text : List ℕ) × HadLeft (S.left input.old) text × ((m : Module) → image.now ≡ image_of m → IsBuilt m → Answered (ModuleAnswer m steps text) result (K.held out.old) (K.held out.new)) }
    ensures left { Left result (S.left input.old) (S.left input.new) (S.faults input.old) (S.faults input.new) }
    ensures out_counted { Counted Status.SinkFault result (K.faults out.old) (K.faults out.new) }
    ensures input_counted { Counted Status.SourceFault result (S.faults input.old) (S.faults input.new) }
    ensures no_shelf { result ≡ Status.ShelfFault → ⊥ }
{
    unchanged();
    match read_numbers(alloc, input) {
        Ok(numbers) => run_image(alloc, image, numbers.as_slice(), steps, out),
        Err(InputError::Failed) => Status::SourceFault,
        Err(InputError::TooLong) => Status::BadInput(InputError::TooLong),
        Err(InputError::NoNumber { at }) => Status::BadInput(InputError::NoNumber { at }),
        Err(InputError::TooMany { at }) => Status::BadInput(InputError::TooMany { at }),
        Err(InputError::NoMemory) => Status::NoMemory,
    }
}

// Runs a module whose conditions are proved.
fn run_accepted<S: Source, K: Sink>(
    alloc: Global,
    m: &Module,
    steps: u64,
    input: &mut S,
    out: &mut K,
) -> Status
    requires form { IsForm m.now }
    requires accepted { IsAccepted m.now }
    ensures answered { SomeAnswer (ModuleAnswer m.now steps) (S.left input.old) result (K.held out.old) (K.held out.new) }
    ensures left { Left result (S.left input.old) (S.left input.new) (S.faults input.old) (S.faults input.new) }
    ensures out_counted { Counted Status.SinkFault result (K.faults out.old) (K.faults out.new) }
    ensures input_counted { Counted Status.SourceFault result (S.faults input.old) (S.faults input.new) }
    ensures no_shelf { result ≡ Status.ShelfFault → ⊥ }
{
    unchanged();
    proved_is_valid();
    conditions_are_sound();
    modules_are_formed();
    code_simulates();
    let Ok(linked) = link_main(alloc, m) else {
        return Status::NoMemory;
    };
    match compile(alloc, &linked) {
        Ok(image) => run_on_input(alloc, &image, steps, input, out),
        Err(CodeError::CodeTooLong) => Status::LinkRefused(LinkError::CodeTooLong),
        Err(CodeError::NoMemory) => Status::NoMemory,
    }
}

// The line of a module's first condition that is not proved.
fn line_of(alloc: Global, m: &Module, first: Unproved) -> Result<Name, NoMemory>
    ensures { IfOk result (λ line. line ≡ lines.unproved_line m.now.name first.number first.kind first.at) }
{
    unproved_line(alloc, m.name.bytes(), first.number, first.kind, first.at)
}

/// Carries out a module: the line of its first unproved condition, or else its run on the input.
pub fn run_module<S: Source, K: Sink>(
    alloc: Global,
    m: &Module,
    steps: u64,
    input: &mut S,
    out: &mut K,
) -> Status
    requires form { IsForm m.now }
    ensures answered { SomeAnswer (ModuleAnswer m.now steps) (S.left input.old) result (K.held out.old) (K.held out.new) }
    ensures left { Left result (S.left input.old) (S.left input.new) (S.faults input.old) (S.faults input.new) }
    ensures out_counted { Counted Status.SinkFault result (K.faults out.old) (K.faults out.new) }
    ensures input_counted { Counted Status.SourceFault result (S.faults input.old) (S.faults input.new) }
    ensures no_shelf { result ≡ Status.ShelfFault → ⊥ }
{
    unchanged();
    match first_unproved(alloc, m) {
        Ok(None) => run_accepted(alloc, m, steps, input, out),
        Ok(Some(first)) => refused(line_of(alloc, m, first)),
        Err(_) => Status::NoMemory,
    }
}
