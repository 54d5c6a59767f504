//! Calls that are counted, some of which fail.

ghost use Rattle.std.specs.Prelude.{◌≡◌, ◌+◌, ◌-◌, ◌^◌, ◌<◌, ◌≤◌, ◌↔◌, IsTrue, IsFalse, min};
ghost use Rattle.edge_io.specs.Memory.{Fails};

use crate::listed::Listed;

/// Counts a call, and its fault where it fails. Each count stands still at its last value.
pub(crate) fn call_fails(failing: &Listed<u32>, calls: &mut u32, faults: &mut u64) -> bool
    ensures fails { IsTrue result ↔ Fails failing.now calls.old }
    ensures counted { calls.new ≡ min (calls.old + 1) (2 ^ 32 - 1) }
    ensures never_falls { faults.old ≤ faults.new }
    ensures fits { faults.new < 2 ^ 64 }
    ensures rose { IsTrue result → faults.new ≡ min (faults.old + 1) (2 ^ 64 - 1) }
    ensures stays { IsFalse result → faults.new ≡ faults.old }
{
    let so_far = *faults;
    if *calls == u32::MAX {
        return false;
    }
    *calls += 1;
    let fails = failing.as_slice().contains(calls);
    if fails {
        *faults = so_far.saturating_add(1);
    }
    fails
}
