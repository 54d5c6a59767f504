//! Where bytes come from.

ghost use Rattle.std.specs.Prelude.{◌<◌, ◌≤◌, ◌^◌, IfOk, OnErr, length};
ghost use Rattle.edge_io.specs.Faults.{Rose};
ghost use Rattle.edge_io.specs.Held.{Took};

/// A call on a source or a sink failed.
#[derive(Clone, Copy, Debug, PartialEq, Eq)]
pub struct Failed;

/// A source of bytes.
pub trait Source {
    ghost use Rattle.std.specs.Prelude.{ℕ, List, Option};

    /// How many of its calls have failed.
    ghost faults: { Self → ℕ };

    /// The bytes that are left, where it tells.
    ghost left: { Self → Option (List ℕ) };

    /// Reads into the front of `buf`, and answers how many bytes came. None into a buffer that is not empty is the end.
    fn read(&mut self, buf: &mut [u8]) -> Result<usize, Failed>
        ensures within { IfOk result (λ n. n ≤ length buf.old) }
        ensures taken { IfOk result (λ n. Took (left self.old) (left self.new) buf.new n) }
        ensures never_falls { faults self.old ≤ faults self.new }
        ensures fits { faults self.new < 2 ^ 64 }
        ensures failed { OnErr result (Rose (faults self.old) (faults self.new)) };
}
