//! Runs of the machine.

ghost use Rattle.std.specs.Prelude.{◌≡◌, ◌≤◌, OnErr, OnOk};
ghost use Rattle.edge_io.specs.Faults.{Rose};
ghost use Rattle.edge_io.specs.Held.{Grew, GrewByPrefix};
ghost use Rattle.stack_machine.specs.Lines.{line};
ghost use Rattle.stack_machine.specs.Running.{text_of};
ghost use Rattle.stack_machine.specs.Runs.{HasMain, NeverStuck, Stopped};

use crate::image::{Image, Stop};
use crate::running::{Effect, Running};
use edge_io::sink::{Sink, write_all};
use edge_io::source::Failed;
use itoa::Buffer;
use std::alloc::Global;

/// Runs the machine for at most so many instructions. The line of each number that is written is passed to `write_all` before
/// the next instruction begins: that is how the code is written, and the contract speaks of what the sink has got at the end.
pub fn run<K: Sink>(alloc: Global, image: &Image, input: &[i64], steps: u64, out: &mut K) -> Stop
    requires main { HasMain image.now }
    requires never_stuck { NeverStuck image.now input.now steps }
    ensures stopped { Stopped image.now input.now steps result (K.held out.old) (K.held out.new) }
    ensures never_falls { K.faults out.old ≤ K.faults out.new }
    ensures fault { result ≡ Stop.SinkFault → Rose (K.faults out.old) (K.faults out.new) }
{
    let Ok(mut running) = Running::new(alloc, image) else {
        return Stop::NoMemory;
    };
    for done in 0..steps {
        let Ok(effect) = running.step(image, input) else {
            return Stop::NoMemory;
        };
        let Ok(()) = tell(out, effect) else {
            return Stop::SinkFault;
        };
        if let Effect::Returned = effect {
            return Stop::Halted;
        }
    }
    Stop::StepsSpent
}

// What an instruction wrote.
#[tactic(auto, using(crate::proofs::Telling::grew_refl))]
fn tell<K: Sink>(out: &mut K, effect: Effect) -> Result<(), Failed>
    ensures appended { OnOk result (Grew (K.held out.old) (K.held out.new) (text_of effect)) }
    ensures prefix { OnErr result (GrewByPrefix (K.held out.old) (K.held out.new) (text_of effect)) }
    ensures never_falls { K.faults out.old ≤ K.faults out.new }
    ensures failed { OnErr result (Rose (K.faults out.old) (K.faults out.new)) }
{
    match effect {
        Effect::Wrote(number) => write_line(out, number),
        Effect::Quiet | Effect::Returned => Ok(()),
    }
}

// The line of a number.
#[tactic(auto, using(crate::proofs::Telling::line_begun))]
fn write_line<K: Sink>(out: &mut K, number: i64) -> Result<(), Failed>
    ensures appended { OnOk result (Grew (K.held out.old) (K.held out.new) (line number)) }
    ensures prefix { OnErr result (GrewByPrefix (K.held out.old) (K.held out.new) (line number)) }
    ensures never_falls { K.faults out.old ≤ K.faults out.new }
    ensures failed { OnErr result (Rose (K.faults out.old) (K.faults out.new)) }
{
    let mut buffer = Buffer::new();
    write_all(out, buffer.format(number).as_bytes())?;
    write_all(out, b"\n")
}
