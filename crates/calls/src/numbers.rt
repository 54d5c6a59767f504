//! The words on numbers of linear forms, each a whole number or `lost`: `plus:A:B`, `times_of:A:B`, and `narrow:A`, which says whether it is
//! narrow and whether it is 0.

use crate::saying::{say, say_truth};
use crate::trouble::Trouble;
use crate::words::{parsed, two_parts};
use num_theory::Number;

fn number(text: &str) -> Result<Number, Trouble> {
    if text == "lost" {
        return Ok(Number::Lost);
    }
    Ok(Number::Exact(parsed::<i128>(text)?))
}

fn two_numbers(rest: &str) -> Result<(Number, Number), Trouble> {
    let (a, b) = two_parts(rest)?;
    Ok((number(a)?, number(b)?))
}

fn say_exact_or_lost(said: &mut String, n: Number) -> Result<(), Trouble> {
    match n {
        Number::Exact(n) => Ok(write!(said, " {n}")?),
        Number::Lost => say(said, "lost"),
    }
}

fn say_sum(said: &mut String, rest: &str) -> Result<(), Trouble> {
    let (a, b) = two_numbers(rest)?;
    say_exact_or_lost(said, a.plus(b))
}

fn say_product(said: &mut String, rest: &str) -> Result<(), Trouble> {
    let (a, b) = two_numbers(rest)?;
    say_exact_or_lost(said, a.times(b))
}

fn say_narrow(said: &mut String, rest: &str) -> Result<(), Trouble> {
    let n = number(rest)?;
    say_truth(said, n.is_narrow())?;
    say_truth(said, n.is_zero())
}

/// Whether the word is one on such numbers, which is done.
pub fn calls_with_numbers(said: &mut String, name: &str, rest: &str) -> Result<bool, Trouble> {
    let done = match name {
        "plus" => say_sum(said, rest),
        "times_of" => say_product(said, rest),
        "narrow" => say_narrow(said, rest),
        _ => return Ok(false),
    };
    done?;
    Ok(true)
}
