//! Rows of numbers, of which the last is the constant: their sums, their magnitudes and their reduced form.
ghost use Rattle.std.specs.Prelude.{◌≡◌, ◌^◌, ◌<◌, length, pos, unsigned_abs, map, fold, All, IsOk, IsErr, IfSome, IfNone, ◌*ℤ◌, true, false};
ghost use Rattle.std.specs.Int.{int_div_euclid};
ghost use Rattle.num_theory.specs.Rows.{combined, combined_number, all_narrow, narrow, greatest, gcd, divisor, reduced, coefficients, IsGreatestDivisor};

/// A number has magnitude 2^31 or more.
#[derive(Clone, Copy, Debug, PartialEq, Eq)]
pub struct Wide;

// The least magnitude that is wide.
const WIDE: i64 = 1 << 31;

/// Whether the magnitude is below 2^31.
pub(crate) fn is_narrow(number: i64) -> bool
    ensures { result ≡ narrow number }
{
    number > -WIDE && number < WIDE
}

fn times(by: u32, number: i32) -> i64
    requires { by < 2 ^ 31 }
    ensures value { result ≡ pos by *ℤ number }
    ensures bound { unsigned_abs result < 2 ^ 62 }
{
    by as i64 * number as i64
}

fn combine_numbers(p: u32, x: i32, q: u32, y: i32) -> Option<i32>
    requires p_small { p < 2 ^ 31 }
    requires q_small { q < 2 ^ 31 }
    ensures fits { IfSome result (λ z. (z ≡ combined_number p x q y) × (narrow (combined_number p x q y) ≡ true)) }
    ensures wide { IfNone result (narrow (combined_number p x q y) ≡ false) }
{
    let sum = times(p, x) + times(q, y);
    if is_narrow(sum) {
        Some(sum as i32)
    } else {
        None
    }
}

/// Sets each number of `out` to `p` times that of `a` plus `q` times that of `b`. Where one of
/// these has magnitude 2^31 or more, the answer is `Wide` and all of `out` is 0.
pub fn combine(p: u32, a: &[i32], q: u32, b: &[i32], out: &mut [i32]) -> Result<(), Wide>
    requires p_small { p < 2 ^ 31 }
    requires q_small { q < 2 ^ 31 }
    requires same_length { length a.now ≡ length b.now }
    requires out_length { length out.old ≡ length a.now }
    ensures fits { all_narrow (combined p a.now q b.now) ≡ true → IsOk result × (out.new ≡ combined p a.now q b.now) }
    ensures wide { all_narrow (combined p a.now q b.now) ≡ false → IsErr result × All (λ z. z ≡ pos 0) out.new }
{
    for k in 0..out.len() {
        match combine_numbers(p, a[k], q, b[k]) {
            Some(number) => out[k] = number,
            None => {
                out.fill(0);
                return Err(Wide);
            }
        }
    }
    Ok(())
}

/// The greatest magnitude in the row, 0 where it is empty.
pub fn largest(row: &[i32]) -> u32
    ensures { result ≡ greatest row.now }
{
    let mut most = 0;
    for number in row {
        most = most.max(number.unsigned_abs());
    }
    most
}

fn greatest_common_divisor(a: u32, b: u32) -> u32
    ensures { result ≡ gcd a b }
{
    let mut x = a;
    let mut y = b;
    while y != 0 {
        let rest = x % y;
        x = y;
        y = rest;
    }
    x
}

fn divisor_of(coefficients: &[i32]) -> u32
    ensures { result ≡ fold (λ g z. gcd g (unsigned_abs z)) 0 coefficients.now }
{
    let mut common = 0;
    for number in coefficients {
        common = greatest_common_divisor(common, number.unsigned_abs());
    }
    common
}

fn divide_down(number: i32, by: u32) -> i32
    requires { 0 < by }
    ensures { result ≡ int_div_euclid number (pos by) }
{
    (number as i64).div_euclid(by as i64) as i32
}

fn divide_all(row: &mut [i32], by: u32)
    requires { 0 < by }
    ensures { row.new ≡ map (λ z. int_div_euclid z (pos by)) row.old }
{
    for number in row.iter_mut() {
        *number = divide_down(*number, by);
    }
}

/// Divides the coefficients by their greatest common divisor, and the constant by it, rounded
/// down. Where each coefficient is 0 or there is none, the row stays as it is.
pub fn reduce(row: &mut [i32])
    ensures value { row.new ≡ reduced row.old }
    ensures greatest { IsGreatestDivisor (divisor row.old) (coefficients row.old) }
{
    if row.is_empty() {
        return;
    }
    let by = divisor_of(&row[..row.len() - 1]);
    if by > 0 {
        divide_all(row, by);
    }
}
