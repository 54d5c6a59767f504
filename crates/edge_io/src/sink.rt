//! Where bytes go.

ghost use Rattle.std.specs.Prelude.{[], ◌≤◌, ◌<◌, ◌^◌, IfOk, OnErr, OnOk, length, take};
ghost use Rattle.edge_io.specs.Faults.{Rose};
ghost use Rattle.edge_io.specs.Held.{Grew, GrewByPrefix};

use crate::source::Failed;

/// A sink of bytes.
pub trait Sink {
    ghost use Rattle.std.specs.Prelude.{ℕ, List, Option};

    /// How many of its calls have failed.
    ghost faults: { Self → ℕ };

    /// The bytes that it holds, where it tells.
    ghost held: { Self → Option (List ℕ) };

    /// Takes the first bytes of `bytes`, and answers how many: at least one of a piece that is not empty.
    fn write(&mut self, bytes: &[u8]) -> Result<usize, Failed>
        ensures within { IfOk result (λ n. n ≤ length bytes.now) }
        ensures some { IfOk result (λ n. 0 < length bytes.now → 0 < n) }
        ensures appended { IfOk result (λ n. Grew (held self.old) (held self.new) (take n bytes.now)) }
        ensures unchanged { OnErr result (Grew (held self.old) (held self.new) []) }
        ensures never_falls { faults self.old ≤ faults self.new }
        ensures fits { faults self.new < 2 ^ 64 }
        ensures failed { OnErr result (Rose (faults self.old) (faults self.new)) };
}

/// Writes all the bytes. This takes no memory.
pub fn write_all<K: Sink>(sink: &mut K, bytes: &[u8]) -> Result<(), Failed>
    ensures appended { OnOk result (Grew (K.held sink.old) (K.held sink.new) bytes.now) }
    ensures prefix { OnErr result (GrewByPrefix (K.held sink.old) (K.held sink.new) bytes.now) }
    ensures never_falls { K.faults sink.old ≤ K.faults sink.new }
    ensures failed { OnErr result (Rose (K.faults sink.old) (K.faults sink.new)) }
{
    let mut rest = bytes;
    while !rest.is_empty() {
        let n = sink.write(rest)?;
        rest = &rest[n..];
    }
    Ok(())
}
