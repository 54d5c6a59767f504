//! Filling: terms are put for the variables of a term and descriptors for its type parameters, all at once.

ghost use Rattle.std.specs.Prelude.{◌≡◌, ◌≤◌, ◌+◌, IfOk, IfErr, OnOk, min, slice_get, sum_by};
ghost use Rattle.math_terms.specs.Terms.{nodes, IsSizeRefusal};
ghost use Rattle.math_terms.specs.Filling.{filled};
ghost use Rattle.math_terms.specs.Positions as positions;
ghost use Rattle.math_terms.specs.working.Sources.{filled_count, initial_count, variable_count};

use crate::descriptor::Desc;
use crate::insertion::fill_into;
use crate::name::{NoMemory, TermError};
use crate::nodes::{count, one_more, up_to};
use crate::substitution::MOST_NODES;
use crate::subterms::numbered;
use crate::term::Term;
use crate::view::View;
use std::alloc::Global;

/// The term with a term of `vars`, numbered from 1, in place of each variable, and the initial formula of a descriptor of
/// `descs`, numbered from 0, about x in place of each `Initial(k, x)`. What is put is not filled again; a number that the
/// slice does not have stays, as does `Var(0)`. `TooLarge` says that the result would have over 10,000 nodes; that is found
/// before any memory is taken.
pub fn fill(alloc: Global, t: &Term, vars: &[Term], descs: &[Desc]) -> Result<Term, TermError>
    ensures exact { IfOk result (λ r. r ≡ filled vars.now descs.now t.now) }
    ensures small { OnOk result (nodes (filled vars.now descs.now t.now) ≤ 10000) }
    ensures refused { IfErr result (λ e. IsSizeRefusal e (nodes (filled vars.now descs.now t.now))) }
{
    if count_filled(t, vars, descs) > MOST_NODES {
        return Err(TermError::TooLarge);
    }
    match fill_into(alloc, t, vars, descs) {
        Ok(term) => Ok(term),
        Err(_) => Err(TermError::NoMemory),
    }
}

/// The filled term, of whatever size: what is put and where, `fill` tells.
pub fn filled(alloc: Global, t: &Term, vars: &[Term], descs: &[Desc]) -> Result<Term, NoMemory>
    ensures { IfOk result (λ r. r ≡ filled vars.now descs.now t.now) }
{
    fill_into(alloc, t, vars, descs)
}

/// How many nodes the filled term has, at most 10,001.
#[cycle(count_filled)]
fn count_filled(t: &Term, vars: &[Term], descs: &[Desc]) -> u32
    ensures { result ≡ filled_count 10000 vars.now descs.now t.now }
{
    match t.view() {
        View::Num(_) | View::Truth(_) | View::MinInt | View::MaxInt | View::Empty => 1,
        View::Var(k) => count_variable(k, vars),
        View::One(_, a) | View::Proj(_, a) => {
            one_more(MOST_NODES, count_filled(a, vars, descs), 0, 0)
        }
        View::Two(_, a, b) => one_more(
            MOST_NODES,
            count_filled(a, vars, descs),
            count_filled(b, vars, descs),
            0,
        ),
        View::Part(i, j, a) => one_more(
            MOST_NODES,
            count_filled(i, vars, descs),
            count_filled(j, vars, descs),
            count_filled(a, vars, descs),
        ),
        View::Tuple(parts) => count_tuple(parts, vars, descs),
        View::Initial(k, a) => count_initial(k, count_filled(a, vars, descs), descs),
    }
}

/// The same for a tuple of these parts.
#[cycle(count_filled)]
fn count_tuple(parts: &[Term], vars: &[Term], descs: &[Desc]) -> u32
    ensures { result ≡ min (1 + sum_by (filled_count 10000 vars.now descs.now) parts.now) (10000 + 1) }
{
    let mut total = 1;
    for t in parts {
        total = up_to(MOST_NODES, total, count_filled(t, vars, descs));
    }
    total
}

/// The same for a variable.
fn count_variable(k: u32, vars: &[Term]) -> u32
    ensures { result ≡ variable_count 10000 (positions.numbered k vars.now) }
{
    match numbered(k, vars) {
        Some(t) => t.nodes_up_to(MOST_NODES),
        None => 1,
    }
}

/// The same for an initial formula about a term that counts so many.
fn count_initial(k: u32, argument: u32, descs: &[Desc]) -> u32
    ensures { result ≡ initial_count 10000 (slice_get descs.now k) argument }
{
    match descs.get(k as usize) {
        Some(d) => count(&d.initial, 0, argument, MOST_NODES),
        None => one_more(MOST_NODES, argument, 0, 0),
    }
}
