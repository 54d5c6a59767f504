//! Bytes that are read from a place on.

ghost use Rattle.std.specs.Prelude.{drop, length, ◌≤◌, ◌+◌, ◌≡◌, Some};
ghost use Rattle.edge_io.specs.Held.{Took};

/// Copies as many of the bytes from `place` on as `buf` has room for, and moves `place` past them. Past the end nothing is left.
pub(crate) fn read_from(bytes: &[u8], place: &mut usize, buf: &mut [u8]) -> usize
    ensures within { result ≤ length buf.old }
    ensures taken { Took (Some (drop place.old bytes.now)) (Some (drop place.new bytes.now)) buf.new result }
    ensures moved { place.new ≡ place.old + result }
{
    let left = bytes.get(*place..).unwrap_or(&[]);
    let count = left.len().min(buf.len());
    buf[..count].copy_from_slice(&left[..count]);
    *place += count;
    count
}
