//! The sorts of terms.

ghost use Rattle.std.specs.Prelude.{◌≡◌, ◌≢◌, ◌+◌, ◌^◌, ◌<◌, IfOk, IfErr, map, sum_by};
ghost use Rattle.math_terms.specs.declared.term.Term.TheOpen.{Term-F};
ghost use Rattle.math_terms.specs.Terms.{nodes};
ghost use Rattle.math_terms.specs.Sorts.{IsSortRefusal, sort, sorting, sorting_step};
ghost use Rattle.math_terms.specs.Views.{binary_node};
ghost use Rattle.math_terms.specs.working.Walking.{IsWalk, IsWalkOfAll, numbered};

use crate::descriptor::Sort;
use crate::meeting::string_of;
use crate::name::TermError;
use crate::sort_rules::{
    sort_of_initial, sort_of_one, sort_of_part, sort_of_projection, sort_of_two, sort_of_variable,
};
use crate::term::Term;
use crate::view::{Binary, View};
use sqlite_items::Items;
use std::alloc::Global;

/// The sort of a term, and the number that the next node has.
#[derive(Drop)]
struct Sorted {
    sort: Sort,
    next: u32,
}

/// The sorts of terms one after the other, and the number that the next node has.
#[derive(Drop)]
struct SortedParts {
    sorts: Items<Sort>,
    next: u32,
}

/// The sort of a term whose variables have the sorts of `vars`, numbered from 1. `SortClash` names the first node
/// in post-order that has none, counted from 0.
pub fn sort_of(alloc: Global, t: &Term, vars: &[Sort]) -> Result<Sort, TermError>
    requires { nodes t.now < 2 ^ 32 }
    ensures found { IfOk result (λ s. sort vars.now t.now ≡ Some s) }
    ensures refused { IfErr result (IsSortRefusal vars.now t.now) }
    ensures none { IfErr result (λ e. e ≢ TermError.NoMemory → sort vars.now t.now ≡ None) }
{
    match walk(alloc, t, vars, 0) {
        Ok(Sorted { sort, next: _ }) => Ok(sort),
        Err(e) => Err(e),
    }
}

/// The sort of a term whose first node has the number `start`.
#[cycle(walk)]
fn walk(alloc: Global, t: &Term, vars: &[Sort], start: u32) -> Result<Sorted, TermError>
    requires { start + nodes t.now < 2 ^ 32 }
    ensures { IsWalk start (nodes t.now) (sorting vars.now t.now) result }
{
    match t.view() {
        View::Num(_) | View::MinInt | View::MaxInt => at_node(Some(Sort::Z), start),
        View::Truth(_) => at_node(Some(Sort::B), start),
        View::Var(k) => at_node(sort_of_variable(alloc, k, vars)?, start),
        View::Empty => at_node(string_of(alloc, Some(Sort::Any))?, start),
        View::One(op, a) => {
            let a = walk(alloc, a, vars, start)?;
            at_node(sort_of_one(alloc, op, a.sort)?, a.next)
        }
        View::Two(op, a, b) => walk_two(alloc, op, a, b, vars, start),
        View::Part(i, j, a) => walk_part(alloc, i, j, a, vars, start),
        View::Tuple(parts) => {
            let parts = walk_all(alloc, parts, vars, start)?;
            at_node(Some(Sort::Tup(parts.sorts)), parts.next)
        }
        View::Proj(k, a) => {
            let a = walk(alloc, a, vars, start)?;
            at_node(sort_of_projection(k, a.sort), a.next)
        }
        View::Initial(k, a) => {
            let a = walk(alloc, a, vars, start)?;
            at_node(sort_of_initial(alloc, k, &a.sort)?, a.next)
        }
    }
}

/// The sort of a node with two children.
#[cycle(walk)]
fn walk_two(
    alloc: Global,
    op: Binary,
    a: &Term,
    b: &Term,
    vars: &[Sort],
    start: u32,
) -> Result<Sorted, TermError>
    requires { start + (1 + nodes a.now + nodes b.now) < 2 ^ 32 }
    ensures { IsWalk start (1 + nodes a.now + nodes b.now) (sorting_step vars.now (binary_node op (sorting vars.now a.now) (sorting vars.now b.now))) result }
{
    let a = walk(alloc, a, vars, start)?;
    let b = walk(alloc, b, vars, a.next)?;
    at_node(sort_of_two(alloc, op, &a.sort, &b.sort)?, b.next)
}

/// The sort of a part of a string.
#[cycle(walk)]
fn walk_part(
    alloc: Global,
    i: &Term,
    j: &Term,
    a: &Term,
    vars: &[Sort],
    start: u32,
) -> Result<Sorted, TermError>
    requires { start + (1 + nodes i.now + nodes j.now + nodes a.now) < 2 ^ 32 }
    ensures { IsWalk start (1 + nodes i.now + nodes j.now + nodes a.now) (sorting_step vars.now (Term-F.Part (sorting vars.now i.now) (sorting vars.now j.now) (sorting vars.now a.now))) result }
{
    let i = walk(alloc, i, vars, start)?;
    let j = walk(alloc, j, vars, i.next)?;
    let a = walk(alloc, a, vars, j.next)?;
    at_node(sort_of_part(&i.sort, &j.sort, a.sort), a.next)
}

/// The sorts of the parts of a tuple.
#[cycle(walk)]
fn walk_all(
    alloc: Global,
    parts: &[Term],
    vars: &[Sort],
    start: u32,
) -> Result<SortedParts, TermError>
    requires { start + sum_by nodes parts.now < 2 ^ 32 }
    ensures { IsWalkOfAll start (sum_by nodes parts.now) (map (sorting vars.now) parts.now) result }
{
    let mut sorts = Items::new(alloc);
    let mut next = start;
    for t in parts {
        let found = walk(alloc, t, vars, next)?;
        sorts.push(found.sort)?;
        next = found.next;
    }
    Ok(SortedParts { sorts, next })
}

/// The answer for a node with this number.
fn at_node(s: Option<Sort>, node: u32) -> Result<Sorted, TermError>
    requires { node + 1 < 2 ^ 32 }
    ensures { result ≡ numbered s node }
{
    match s {
        Some(sort) => Ok(Sorted {
            sort,
            next: node + 1,
        }),
        None => Err(TermError::SortClash { node }),
    }
}
